// Checking a partner's sheet against a ledger and a broadcast list: 02, CR 10.
#![tactic(auto)]

ghost use Rattle.std.specs.Prelude.{◌≡◌, length};
ghost use Rattle.lent.specs.Digits.{two_at};
ghost use Rattle.broadcast.specs.Issues.{issue_of};
ghost use Rattle.list.specs.Rows.{row_in, list_in};
ghost use Rattle.sheet_form.specs.Reading.{rows_said};
ghost use Rattle.sheet_checking.specs.Same.{same_ura, same_numbers};
ghost use Rattle.sheet_checking.specs.declared.Fault.TheVariants as fault;
ghost use Rattle.sheet_checking.specs.Checking.{checked_says, row_says, refused_row, row_refusal, offence, rows_say, is_other, checked_answer};

use list::rows::row_count;
use row::{Row, slot_row};
use sheet_form::Header;
use sheet_reading::{Wrong, read_sheet, row_said};
use sheet_writing::MOST_ROWS;
use ura::{Ura, ura_kind, ura_quarters};
use verdict::Refused;

// A refusal number, the offset of refusal 23, or the number of a row that has an unknown slot, other numbers, or a slot that an earlier row has.
#[derive(Clone, Copy, PartialEq, Eq)]
pub enum Fault {
    Number(u8),
    Wrong(u32),
    Unknown(u16),
    Other(u16),
    Repeated(u16),
}

// How many of our rows an accepted sheet left out, or what is at fault.
pub type Checked = Result<u16, Fault>;

impl From<Refused> for Fault {
    ghost from_gives = { λ r f. f ≡ fault.Number r.0 };

    fn from(r: Refused) -> Fault {
        Fault::Number(r.0)
    }
}

impl From<Wrong> for Fault {
    ghost from_gives = { λ w f. f ≡ fault.Wrong w.0 };

    fn from(w: Wrong) -> Fault {
        Fault::Wrong(w.0)
    }
}

// The broadcast issue of a slot; entries past the end are 0.
fn issue_of(issues: &[u16], slot: u8) -> u16
    ensures { result ≡ issue_of issues.now slot }
{
    let i = if slot == 0 { 0 } else { slot as usize - 1 };
    if i < issues.len() { issues[i] } else { 0 }
}

// Whether two accuracy indices are equal.
fn same_ura(u: Ura, v: Ura) -> bool
    ensures { result ≡ same_ura u v }
{
    (ura_kind(u) == ura_kind(v)) & (ura_quarters(u) == ura_quarters(v))
}

// Whether two rows of one slot are equal.
fn same_numbers(a: Row, b: Row) -> bool
    ensures { result ≡ same_numbers a b }
{
    (a.iodn == b.iodn)
        & (a.corr == b.corr)
        & (a.radial == b.radial)
        & (a.along == b.along)
        & (a.cross == b.cross)
        & (a.clock == b.clock)
        & same_ura(a.ura, b.ura)
}

// What is at fault with row k of a sheet: 24, 25, or 26 where its slot came before.
fn row_fault(ledger: &[u8], issues: &[u16], row: Row, again: bool, k: u16) -> Result<(), Fault>
    ensures { row_says result ≡ refused_row (row_refusal row (row_in ledger.now issues.now row.slot.0) again) k }
{
    let issue = issue_of(issues, row.slot.0);
    let Ok(ours) = slot_row(ledger, row.slot, issue) else {
        return Err(Fault::Unknown(k));
    };
    if !same_numbers(row, ours) {
        return Err(Fault::Other(k));
    }
    if again {
        return Err(Fault::Repeated(k));
    }
    Ok(())
}

// The rows of a sheet are held against our list, which has so many rows.
fn check_rows(ledger: &[u8], issues: &[u16], sheet: &[u8], rows: u16, ours: u16) -> Checked
    requires { (rows ≡ two_at sheet.now 6) × (ours ≡ length (list_in ledger.now issues.now)) }
    ensures { checked_says result
        ≡ rows_say ledger.now issues.now (rows_said sheet.now)
        (offence ledger.now issues.now (rows_said sheet.now)) }
{
    let mut seen = [false; 256];
    for k in 0..rows {
        let row = row_said(sheet, 8 + 24 * k as u32);
        let i = row.slot.0 as usize;
        row_fault(ledger, issues, row, seen[i], k + 1)?;
        seen[i] = true;
    }
    Ok(ours - rows)
}

// Whether PRN, SSR or IODP differ from the ledger's.
fn is_other(ledger: &[u8], header: Header) -> bool
    ensures { result ≡ is_other ledger.now header }
{
    (header.prn != lent::byte(ledger, 0))
        | (header.ssr != held_mask::mask_ssr(ledger))
        | (header.iodp != held_mask::mask_iodp(ledger))
}

// A partner's sheet is checked: refusals 1, 17, 20, 23 with its offset, 27, then 24, 25, 26 with the row; or how many of our rows it left out.
pub fn check_sheet(ledger: &[u8], issues: &[u16], sheet: &[u8]) -> Checked
    ensures { checked_says result ≡ checked_answer ledger.now issues.now sheet.now }
{
    let ours = row_count(ledger, issues)?;
    if !held_mask::has_mask(ledger) {
        return Err(Fault::Number(20));
    }
    let header = read_sheet(sheet, MOST_ROWS, false)?;
    if is_other(ledger, header) {
        return Err(Fault::Number(27));
    }
    check_rows(ledger, issues, sheet, header.rows, ours)
}
