// A table of four ledgers at the C boundary, with the tally of refusals: 02, CR 14.
ghost use Rattle.std.specs.Prelude.{◌≡◌};
ghost use Rattle.verdict.specs.Verdict.{number_in, refused_says, refused_by};
ghost use Rattle.answers.specs.Detail.{detail_in};
ghost use Rattle.table_calls.specs.Table.{table_open_answer, table_opened, table_open_tally, table_close_answer, table_closed, table_close_tally, table_take_answer, table_taken, table_take_tally, rows_for_refusal, table_rows_answer, table_rows_room, table_rows_tally, table_row_answer, table_row_room, table_row_tally};

use answers::{ROW_SIZE, ROWS_SIZE, detail};
use flat_forms::put_row;
use row_rooms::fill_rows;
use table::{close, open, take};
use table_form::ledger_for;
use table_list::{asking_refusal, row_of_slot};
use tally::{TALLY_SIZE, count};
use verdict::{Refused, number_of};

// A ledger is opened for a PRN in the first room that is free. 4, 28, 29, 39.
pub fn qvd_table_open(table: &mut [u8], tally: &mut [u8], prn: u8) -> u8
    ensures answer { result ≡ table_open_answer table.old tally.old prn }
    ensures bytes { table.new ≡ table_opened table.old tally.old prn }
    ensures tally { tally.new ≡ table_open_tally table.old tally.old prn }
{
    if tally.len() != TALLY_SIZE {
        return 39;
    }
    let n = number_of(open(table, prn));
    count(tally, n);
    n
}

// The ledger of a PRN is closed, and its room is free. 30, 39.
pub fn qvd_table_close(table: &mut [u8], tally: &mut [u8], prn: u8) -> u8
    ensures answer { result ≡ table_close_answer table.old tally.old prn }
    ensures bytes { table.new ≡ table_closed table.old tally.old prn }
    ensures tally { tally.new ≡ table_close_tally table.old tally.old prn }
{
    if tally.len() != TALLY_SIZE {
        return 39;
    }
    let n = number_of(close(table, prn));
    count(tally, n);
    n
}

// A frame is taken by the ledger of its PRN. 1, 3 to 12, 14, 15, 19, 39.
pub fn qvd_table_take(table: &mut [u8], tally: &mut [u8], frame: &[u8]) -> u8
    ensures answer { result ≡ table_take_answer number_in table.old tally.old frame.now }
    ensures bytes { table.new ≡ table_taken table.old tally.old frame.now }
    ensures tally { tally.new ≡ table_take_tally table.old tally.old frame.now }
{
    if tally.len() != TALLY_SIZE {
        return 39;
    }
    let n = number_of(take(table, frame));
    count(tally, n);
    n
}

// A frame is taken by the ledger of its PRN, and the answer also says what the numbers 6 and 19 carry. 1, 3 to 12, 14, 15, 19, 39.
pub fn qvd_table_take_detail(table: &mut [u8], tally: &mut [u8], frame: &[u8]) -> u32
    ensures answer { result ≡ table_take_answer detail_in table.old tally.old frame.now }
    ensures bytes { table.new ≡ table_taken table.old tally.old frame.now }
    ensures tally { tally.new ≡ table_take_tally table.old tally.old frame.now }
{
    if tally.len() != TALLY_SIZE {
        return 39;
    }
    let v = take(table, frame);
    count(tally, number_of(v));
    detail(v)
}

// Why the rows of a PRN's list are refused, if they are: 39 where n bytes are not their room, then as the question.
fn rows_refusal(table: &[u8], prn: u8, issues: &[u16], n: usize) -> Result<(), Refused>
    ensures { refused_says result ≡ refused_by (rows_for_refusal table.now prn issues.now n) }
{
    if n != ROWS_SIZE {
        return Err(Refused(39));
    }
    asking_refusal(table, prn, issues)
}

// All rows of the list of a PRN in rising slot order, then zeros. 1, 17, 30, 39.
pub fn qvd_table_rows(
    table: &[u8],
    tally: &mut [u8],
    prn: u8,
    issues: &[u16],
    rows: &mut [u8],
) -> u8
    ensures answer { result ≡ table_rows_answer table.now tally.old prn issues.now rows.old }
    ensures bytes { rows.new ≡ table_rows_room table.now tally.old prn issues.now rows.old }
    ensures tally { tally.new ≡ table_rows_tally table.now tally.old prn issues.now rows.old }
{
    if tally.len() != TALLY_SIZE {
        return 39;
    }
    if let Err(Refused(n)) = rows_refusal(table, prn, issues, rows.len()) {
        count(tally, n);
        return n;
    }
    fill_rows(ledger_for(table, prn), issues, rows);
    0
}

// The row of a slot in the list of a PRN. 1, 11, 17, 18, 30, 39.
pub fn qvd_table_row(
    table: &[u8],
    tally: &mut [u8],
    prn: u8,
    issues: &[u16],
    slot: u16,
    row: &mut [u8],
) -> u8
    ensures answer { result ≡ table_row_answer table.now tally.old prn issues.now slot row.old }
    ensures bytes { row.new ≡ table_row_room table.now tally.old prn issues.now slot row.old }
    ensures tally { tally.new ≡ table_row_tally table.now tally.old prn issues.now slot row.old }
{
    if tally.len() != TALLY_SIZE {
        return 39;
    }
    if row.len() != ROW_SIZE {
        count(tally, 39);
        return 39;
    }
    match row_of_slot(table, prn, issues, slot) {
        Ok(r) => {
            put_row(row, 0, r);
            0
        }
        Err(Refused(n)) => {
            count(tally, n);
            n
        }
    }
}
