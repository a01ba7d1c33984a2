// The list of a PRN's ledger in a table, and its sheets: 02, CR 14.
#![tactic(auto)]

ghost use Rattle.std.specs.Prelude.{◌≡◌};
ghost use Rattle.list.specs.Rows.{count_says};
ghost use Rattle.row.specs.Row.{row_says};
ghost use Rattle.sheet_writing.specs.Writing.{sheet_says};
ghost use Rattle.sheet_checking.specs.Checking.{checked_says};
ghost use Rattle.verdict.specs.Verdict.{refused_says, refused_by};
ghost use Rattle.table_list.specs.Questions.{asking_refusal, asking_slot_refusal, count_for, row_at_for, row_of_slot_for, sheet_answer_for, sheet_room_for, checked_for};

use broadcast::issues_refusal;
use list::rows::Count;
use row::RowAnswer;
use sheet_checking::Checked;
use sheet_writing::Sheet;
use table_form::{ROOMS, is_table, ledger_for, room_of};
use verdict::Refused;

// Why a question to the list of a PRN is refused: 39, 1, 17, 30, in this order.
pub fn asking_refusal(t: &[u8], prn: u8, issues: &[u16]) -> Result<(), Refused>
    ensures { refused_says result ≡ refused_by (asking_refusal t.now prn issues.now) }
{
    if !is_table(t) {
        return Err(Refused(39));
    }
    issues_refusal(issues)?;
    if ROOMS <= room_of(t, prn) {
        return Err(Refused(30));
    }
    Ok(())
}

// Why a question for a slot is refused: 39, 1, 11, 17, 30, in this order.
fn asking_slot_refusal(t: &[u8], prn: u8, issues: &[u16], slot: u16) -> Result<(), Refused>
    ensures { refused_says result ≡ refused_by (asking_slot_refusal t.now prn issues.now slot) }
{
    if !is_table(t) {
        return Err(Refused(39));
    }
    if issues.len() != 255 {
        return Err(Refused(1));
    }
    if (slot == 0) | (255 < slot) {
        return Err(Refused(11));
    }
    asking_refusal(t, prn, issues)
}

// How many slots qualify in the list of a PRN. Refusals 39, 1, 17, 30.
pub fn row_count(t: &[u8], prn: u8, issues: &[u16]) -> Count
    ensures { count_says result ≡ count_for t.now prn issues.now }
{
    asking_refusal(t, prn, issues)?;
    list::rows::row_count(ledger_for(t, prn), issues)
}

// The n-th row of the list of a PRN, from 1. Refusals 39, 1, 17, 30, 18.
pub fn row_at(t: &[u8], prn: u8, issues: &[u16], n: u16) -> RowAnswer
    ensures { row_says result ≡ row_at_for t.now prn issues.now n }
{
    asking_refusal(t, prn, issues)?;
    list::rows::row_at(ledger_for(t, prn), issues, n)
}

// The row of a slot in the list of a PRN. Refusals 39, 1, 11, 17, 30, 18.
pub fn row_of_slot(t: &[u8], prn: u8, issues: &[u16], slot: u16) -> RowAnswer
    ensures { row_says result ≡ row_of_slot_for t.now prn issues.now slot }
{
    asking_slot_refusal(t, prn, issues, slot)?;
    list::rows::row_of_slot(ledger_for(t, prn), issues, slot)
}

// The sheet of the list of a PRN is put into the room: refusals 39, 1, 17, 30, 20, 22. Room past the sheet, and all room on a refusal, is as it was.
pub fn write_sheet(room: &mut [u8], t: &[u8], prn: u8, issues: &[u16]) -> Sheet
    ensures answer { sheet_says result ≡ sheet_answer_for t.now prn issues.now room.old }
    ensures bytes { room.new ≡ sheet_room_for t.now prn issues.now room.old }
{
    asking_refusal(t, prn, issues)?;
    sheet_writing::write_sheet(room, ledger_for(t, prn), issues)
}

// A partner's sheet is checked against the list of a PRN: refusals 39, 1, 17, 30, 20, 23 with its offset, 27, then 24, 25, 26 with the row; or how many
// of our rows it left out.
pub fn check_sheet(t: &[u8], prn: u8, issues: &[u16], sheet: &[u8]) -> Checked
    ensures { checked_says result ≡ checked_for t.now prn issues.now sheet.now }
{
    asking_refusal(t, prn, issues)?;
    sheet_checking::check_sheet(ledger_for(t, prn), issues, sheet)
}
