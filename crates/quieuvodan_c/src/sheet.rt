// Correction sheets for C, of a ledger and of a PRN in a table: each call is quieuvodan's.
ghost use Rattle.std.specs.Prelude.{◌≡◌};
ghost use Rattle.sheet_calls.specs.Sheet.{write_sheet_answer, write_sheet_room, read_sheet_answer, read_sheet_header, read_sheet_rows, check_sheet_answer};
ghost use Rattle.table_calls.specs.Table.{table_sheet_answer, table_sheet_room, table_sheet_tally, table_check_answer, table_check_tally};

// The sheet of a ledger's list is written; on a refusal the room is as it was. 1, 17, 20, 22, 39.
#[unsafe(no_mangle)]
pub extern "C" fn qvd_write_sheet(ledger: &[u8], issues: &[u16], room: &mut [u8]) -> u32
    ensures answer { result ≡ write_sheet_answer ledger.now issues.now room.old }
    ensures bytes { room.new ≡ write_sheet_room ledger.now issues.now room.old }
{
    quieuvodan::sheet::qvd_write_sheet(ledger, issues, room)
}

// What a sheet says: its header, and its rows with zeros after them; on a refusal both rooms are as they were. 23 with its offset, 39.
#[unsafe(no_mangle)]
pub extern "C" fn qvd_read_sheet(sheet: &[u8], header: &mut [u8], rows: &mut [u8]) -> u32
    ensures answer { result ≡ read_sheet_answer sheet.now header.old rows.old }
    ensures header { header.new ≡ read_sheet_header sheet.now header.old rows.old }
    ensures rows { rows.new ≡ read_sheet_rows sheet.now header.old rows.old }
{
    quieuvodan::sheet::qvd_read_sheet(sheet, header, rows)
}

// A partner's sheet is checked: 256 times how many of our rows it left out. 1, 17, 20, 23 with its offset, 24 to 26 with their row, 27, 39.
#[unsafe(no_mangle)]
pub extern "C" fn qvd_check_sheet(ledger: &[u8], issues: &[u16], sheet: &[u8]) -> u32
    ensures { result ≡ check_sheet_answer ledger.now issues.now sheet.now }
{
    quieuvodan::sheet::qvd_check_sheet(ledger, issues, sheet)
}

// The sheet of the list of a PRN in a table is written; on a refusal the room is as it was. 1, 17, 20, 22, 30, 39.
#[unsafe(no_mangle)]
pub extern "C" fn qvd_table_write_sheet(
    table: &[u8],
    tally: &mut [u8],
    prn: u8,
    issues: &[u16],
    room: &mut [u8],
) -> u32
    ensures answer { result ≡ table_sheet_answer table.now tally.old prn issues.now room.old }
    ensures bytes { room.new ≡ table_sheet_room table.now tally.old prn issues.now room.old }
    ensures tally { tally.new ≡ table_sheet_tally table.now tally.old prn issues.now room.old }
{
    quieuvodan::sheet::qvd_table_write_sheet(table, tally, prn, issues, room)
}

// A partner's sheet is checked against the list of a PRN in a table. 1, 17, 20, 23 with its offset, 24 to 26 with their row, 27, 30, 39.
#[unsafe(no_mangle)]
pub extern "C" fn qvd_table_check_sheet(
    table: &[u8],
    tally: &mut [u8],
    prn: u8,
    issues: &[u16],
    sheet: &[u8],
) -> u32
    ensures answer { result ≡ table_check_answer table.now tally.old prn issues.now sheet.now }
    ensures tally { tally.new ≡ table_check_tally table.now tally.old prn issues.now sheet.now }
{
    quieuvodan::sheet::qvd_table_check_sheet(table, tally, prn, issues, sheet)
}
