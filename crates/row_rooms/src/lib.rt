// The rows of a ledger's list put into lent room as bytes, one after the other: the calls qvd_rows and qvd_row.
#![tactic(auto)]

ghost use Rattle.std.specs.Prelude.{◌≡◌, ◌+◌, ◌*◌, ◌<◌, length};
ghost use Rattle.bits.specs.Bytes.{store_at};
ghost use Rattle.row.specs.Row.{row_says};
ghost use Rattle.list.specs.Rows.{found_count, list_in};
ghost use Rattle.answers.specs.Size.{row_size};
ghost use Rattle.row_calls.specs.Rows.{rows_bytes, answer_bytes, rows_filled, rows_answer, rows_room, row_answer, row_room};

use answers::{ROW_SIZE, ROWS_SIZE};
use broadcast::issues_refusal;
use flat_forms::put_row;
use held_mask::LEDGER_SIZE;
use list::rows::row_of_slot;
use row::{RowAnswer, slot_row};
use slots::Slot;

// The answer's row, if it is one, is put as row n, from 0; says how many rows there are then.
fn put_answer(rows: &mut [u8], n: usize, a: RowAnswer) -> usize
    requires { n < 255 }
    ensures count { result ≡ n + found_count (row_says a) }
    ensures bytes { rows.new ≡ store_at rows.old (row_size * n) (answer_bytes (row_says a).1) }
{
    let Ok(r) = a else {
        return n;
    };
    put_row(rows, ROW_SIZE * n, r);
    n + 1
}

// The rows of all slots that qualify are put, one after the other.
fn put_rows(ledger: &[u8], issues: &[u16], rows: &mut [u8])
    requires { length issues.now ≡ 255 }
    ensures { rows.new ≡ store_at rows.old 0 (rows_bytes (list_in ledger.now issues.now)) }
{
    let mut n: usize = 0;
    for i in 0..255 {
        let slot = (i + 1) as u8;
        let a = slot_row(ledger, Slot(slot), issues[i]);
        n = put_answer(rows, n, a);
    }
}

// The rows of the list in rising slot order, then zeros; the room as it was where the issues are not 255.
pub fn fill_rows(ledger: &[u8], issues: &[u16], rows: &mut [u8])
    ensures { rows.new ≡ rows_filled ledger.now issues.now rows.old }
{
    if issues.len() != 255 {
        return;
    }
    lent::clear(rows);
    put_rows(ledger, issues, rows);
}

// All rows in rising slot order, then zeros. 1, 17, 39.
pub fn rows(ledger: &[u8], issues: &[u16], rows: &mut [u8]) -> u8
    ensures answer { result ≡ rows_answer ledger.now issues.now rows.old }
    ensures bytes { rows.new ≡ rows_room ledger.now issues.now rows.old }
{
    if ledger.len() != LEDGER_SIZE {
        return 39;
    }
    if rows.len() != ROWS_SIZE {
        return 39;
    }
    if let Err(why) = issues_refusal(issues) {
        return why.0;
    }
    fill_rows(ledger, issues, rows);
    0
}

// The row of a slot. 1, 11, 17, 18, 39.
pub fn row(ledger: &[u8], issues: &[u16], slot: u16, row: &mut [u8]) -> u8
    ensures answer { result ≡ row_answer ledger.now issues.now slot row.old }
    ensures bytes { row.new ≡ row_room ledger.now issues.now slot row.old }
{
    if ledger.len() != LEDGER_SIZE {
        return 39;
    }
    if row.len() != ROW_SIZE {
        return 39;
    }
    let a = row_of_slot(ledger, issues, slot);
    match a {
        Ok(r) => {
            put_row(row, 0, r);
            0
        }
        Err(why) => why.0,
    }
}
