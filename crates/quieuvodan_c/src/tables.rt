// A table of four ledgers for C, with the tally of refusals: each call is quieuvodan's.
ghost use Rattle.std.specs.Prelude.{◌≡◌};
ghost use Rattle.verdict.specs.Verdict.{number_in};
ghost use Rattle.answers.specs.Detail.{detail_in};
ghost use Rattle.table_calls.specs.Table.{table_open_answer, table_opened, table_open_tally, table_close_answer, table_closed, table_close_tally, table_take_answer, table_taken, table_take_tally, table_rows_answer, table_rows_room, table_rows_tally, table_row_answer, table_row_room, table_row_tally};

// A ledger is opened for a PRN in the first room that is free. 4, 28, 29, 39.
#[unsafe(no_mangle)]
pub extern "C" fn qvd_table_open(table: &mut [u8], tally: &mut [u8], prn: u8) -> u8
    ensures answer { result ≡ table_open_answer table.old tally.old prn }
    ensures bytes { table.new ≡ table_opened table.old tally.old prn }
    ensures tally { tally.new ≡ table_open_tally table.old tally.old prn }
{
    quieuvodan::tables::qvd_table_open(table, tally, prn)
}

// The ledger of a PRN is closed, and its room is free. 30, 39.
#[unsafe(no_mangle)]
pub extern "C" fn qvd_table_close(table: &mut [u8], tally: &mut [u8], prn: u8) -> u8
    ensures answer { result ≡ table_close_answer table.old tally.old prn }
    ensures bytes { table.new ≡ table_closed table.old tally.old prn }
    ensures tally { tally.new ≡ table_close_tally table.old tally.old prn }
{
    quieuvodan::tables::qvd_table_close(table, tally, prn)
}

// A frame is taken by the ledger of its PRN. 1, 3 to 12, 14, 15, 19, 39.
#[unsafe(no_mangle)]
pub extern "C" fn qvd_table_take(table: &mut [u8], tally: &mut [u8], frame: &[u8]) -> u8
    ensures answer { result ≡ table_take_answer number_in table.old tally.old frame.now }
    ensures bytes { table.new ≡ table_taken table.old tally.old frame.now }
    ensures tally { tally.new ≡ table_take_tally table.old tally.old frame.now }
{
    quieuvodan::tables::qvd_table_take(table, tally, frame)
}

// A frame is taken by the ledger of its PRN, and the answer also says what the numbers 6 and 19 carry. 1, 3 to 12, 14, 15, 19, 39.
#[unsafe(no_mangle)]
pub extern "C" fn qvd_table_take_detail(table: &mut [u8], tally: &mut [u8], frame: &[u8]) -> u32
    ensures answer { result ≡ table_take_answer detail_in table.old tally.old frame.now }
    ensures bytes { table.new ≡ table_taken table.old tally.old frame.now }
    ensures tally { tally.new ≡ table_take_tally table.old tally.old frame.now }
{
    quieuvodan::tables::qvd_table_take_detail(table, tally, frame)
}

// All rows of the list of a PRN in rising slot order, then zeros. 1, 17, 30, 39.
#[unsafe(no_mangle)]
pub extern "C" fn qvd_table_rows(
    table: &[u8],
    tally: &mut [u8],
    prn: u8,
    issues: &[u16],
    rows: &mut [u8],
) -> u8
    ensures answer { result ≡ table_rows_answer table.now tally.old prn issues.now rows.old }
    ensures bytes { rows.new ≡ table_rows_room table.now tally.old prn issues.now rows.old }
    ensures tally { tally.new ≡ table_rows_tally table.now tally.old prn issues.now rows.old }
{
    quieuvodan::tables::qvd_table_rows(table, tally, prn, issues, rows)
}

// The row of a slot in the list of a PRN. 1, 11, 17, 18, 30, 39.
#[unsafe(no_mangle)]
pub extern "C" fn qvd_table_row(
    table: &[u8],
    tally: &mut [u8],
    prn: u8,
    issues: &[u16],
    slot: u16,
    row: &mut [u8],
) -> u8
    ensures answer { result ≡ table_row_answer table.now tally.old prn issues.now slot row.old }
    ensures bytes { row.new ≡ table_row_room table.now tally.old prn issues.now slot row.old }
    ensures tally { tally.new ≡ table_row_tally table.now tally.old prn issues.now slot row.old }
{
    quieuvodan::tables::qvd_table_row(table, tally, prn, issues, slot, row)
}
