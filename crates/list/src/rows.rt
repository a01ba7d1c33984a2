// The list asked for its number of rows, its n-th row, and the row of a slot.
ghost use Rattle.std.specs.Prelude.{◌≡◌};
ghost use Rattle.row.specs.Row.{row_says};
ghost use Rattle.list.specs.Rows.{found_count, count_says, count_answer, row_at_answer, row_of_slot_answer};

use broadcast::issues_refusal;
use row::{RowAnswer, slot_row};
use slots::Slot;
use verdict::Refused;

// A number of rows, or one of 01's refusal numbers.
pub type Count = Result<u16, Refused>;

// 1 where the answer is a row, else 0.
fn one_if_found(a: RowAnswer) -> u16
    ensures { result ≡ found_count (row_says a) }
{
    u16::from(a.is_ok())
}

// How many slots qualify. Refusals 1, 17.
pub fn row_count(ledger: &[u8], issues: &[u16]) -> Count
    ensures { count_says result ≡ count_answer ledger.now issues.now }
{
    issues_refusal(issues)?;
    let mut n: u16 = 0;
    for i in 0..255 {
        let slot = (i + 1) as u8;
        n += one_if_found(slot_row(ledger, Slot(slot), issues[i]));
    }
    Ok(n)
}

// The n-th row, from 1, in rising slot order. Refusals 1, 17, 18.
pub fn row_at(ledger: &[u8], issues: &[u16], n: u16) -> RowAnswer
    ensures { row_says result ≡ row_at_answer ledger.now issues.now n }
{
    issues_refusal(issues)?;
    if n == 0 {
        return Err(Refused(18));
    }
    let mut left = n;
    for i in 0..255 {
        let slot = (i + 1) as u8;
        let Ok(row) = slot_row(ledger, Slot(slot), issues[i]) else {
            continue;
        };
        if left == 1 {
            return Ok(row);
        }
        left -= 1;
    }
    Err(Refused(18))
}

// The row of a slot. Refusals 1, 11, 17, 18.
pub fn row_of_slot(ledger: &[u8], issues: &[u16], slot: u16) -> RowAnswer
    ensures { row_says result ≡ row_of_slot_answer ledger.now issues.now slot }
{
    if issues.len() != 255 {
        return Err(Refused(1));
    }
    if slot == 0 {
        return Err(Refused(11));
    }
    if slot > 255 {
        return Err(Refused(11));
    }
    issues_refusal(issues)?;
    let i = slot as usize - 1;
    let s = slot as u8;
    slot_row(ledger, Slot(s), issues[i])
}
