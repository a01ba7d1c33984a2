// Correction sheets at the C boundary, of a ledger and of a PRN in a table: 02, CR 7, CR 10 and CR 14.
ghost use Rattle.std.specs.Prelude.{◌≡◌, ℕ, ◌+◌, ◌*◌, ◌≤◌, [], ◌∷◌, length, Err};
ghost use Rattle.verdict.specs.Verdict.{number_in};
ghost use Rattle.sheet_writing.specs.Writing.{most_sheet_rows, sheet_says};
ghost use Rattle.sheet_checking.specs.Checking.{checked_says};
ghost use Rattle.sheet_calls.specs.Sheet.{written_in, write_sheet_answer, write_sheet_room, read_sheet_answer, read_sheet_header, read_sheet_rows, check_sheet_answer};
ghost use Rattle.answers.specs.Detail.{detail_in};
ghost use Rattle.table_calls.specs.Table.{table_sheet_answer, table_sheet_room, table_sheet_tally, table_check_answer, table_check_tally};

use held_mask::LEDGER_SIZE;
use sheet_checking::{Checked, Fault, check_sheet};
use sheet_writing::{Sheet, write_sheet};
use tally::{TALLY_SIZE, count};
use verdict::Refused;

// What a writer's answer says in one number: 256 times the sheet's length, or the refusal number.
fn written(a: Sheet) -> u32
    ensures { result ≡ written_in (sheet_says a) }
{
    match a {
        Ok(n) => 256 * (n as u32),
        Err(Refused(n)) => n as u32,
    }
}

// The sheet of a ledger's list is written; on a refusal the room is as it was. 1, 17, 20, 22, 39.
pub fn qvd_write_sheet(ledger: &[u8], issues: &[u16], room: &mut [u8]) -> u32
    ensures answer { result ≡ write_sheet_answer ledger.now issues.now room.old }
    ensures bytes { room.new ≡ write_sheet_room ledger.now issues.now room.old }
{
    if ledger.len() != LEDGER_SIZE {
        return 39;
    }
    written(write_sheet(room, ledger, issues))
}

// What a sheet says: its header, and its rows with zeros after them; on a refusal both rooms are as they were. 23 with its offset, 39.
pub fn qvd_read_sheet(sheet: &[u8], header: &mut [u8], rows: &mut [u8]) -> u32
    ensures answer { result ≡ read_sheet_answer sheet.now header.old rows.old }
    ensures header { header.new ≡ read_sheet_header sheet.now header.old rows.old }
    ensures rows { rows.new ≡ read_sheet_rows sheet.now header.old rows.old }
{
    sheet_rooms::read_into(sheet, header, rows)
}

// What is at fault with a sheet in one number: the refusal number, and 256 times the value beside it.
fn faulty(f: Fault) -> u32
    requires { (at : ℕ) → 23 ∷ at ∷ [] ≡ checked_says (Err f) → at ≤ 8 + 24 * most_sheet_rows + 3 }
    ensures { result ≡ detail_in (checked_says (Err f)) }
{
    match f {
        Fault::Number(n) => n as u32,
        Fault::Wrong(at) => 23 + 256 * at,
        Fault::Unknown(k) => 24 + 256 * (k as u32),
        Fault::Other(k) => 25 + 256 * (k as u32),
        Fault::Repeated(k) => 26 + 256 * (k as u32),
    }
}

// What a checker's answer says in one number: 256 times the rows left out, or what is at fault.
fn checked(a: Checked) -> u32
    requires { (at : ℕ) → 23 ∷ at ∷ [] ≡ checked_says a → at ≤ 8 + 24 * most_sheet_rows + 3 }
    ensures { result ≡ detail_in (checked_says a) }
{
    match a {
        Ok(left) => 256 * (left as u32),
        Err(f) => faulty(f),
    }
}

// A partner's sheet is checked: 256 times how many of our rows it left out. 1, 17, 20, 23 with its offset, 24 to 26 with their row, 27, 39.
pub fn qvd_check_sheet(ledger: &[u8], issues: &[u16], sheet: &[u8]) -> u32
    ensures { result ≡ check_sheet_answer ledger.now issues.now sheet.now }
{
    if ledger.len() != LEDGER_SIZE {
        return 39;
    }
    checked(check_sheet(ledger, issues, sheet))
}

// The number of a writer's answer, 0 where a sheet is written.
fn written_number(a: Sheet) -> u8
    ensures { result ≡ (sheet_says a).0 }
{
    match a {
        Ok(_) => 0,
        Err(Refused(n)) => n,
    }
}

// The number of a checker's answer, 0 where a sheet is accepted.
fn checked_number(a: Checked) -> u8
    ensures { result ≡ number_in (checked_says a) }
{
    match a {
        Ok(_) => 0,
        Err(Fault::Number(n)) => n,
        Err(Fault::Wrong(_)) => 23,
        Err(Fault::Unknown(_)) => 24,
        Err(Fault::Other(_)) => 25,
        Err(Fault::Repeated(_)) => 26,
    }
}

// The sheet of the list of a PRN in a table is written; on a refusal the room is as it was. 1, 17, 20, 22, 30, 39.
pub fn qvd_table_write_sheet(
    table: &[u8],
    tally: &mut [u8],
    prn: u8,
    issues: &[u16],
    room: &mut [u8],
) -> u32
    ensures answer { result ≡ table_sheet_answer table.now tally.old prn issues.now room.old }
    ensures bytes { room.new ≡ table_sheet_room table.now tally.old prn issues.now room.old }
    ensures tally { tally.new ≡ table_sheet_tally table.now tally.old prn issues.now room.old }
{
    if tally.len() != TALLY_SIZE {
        return 39;
    }
    let a = table_list::write_sheet(room, table, prn, issues);
    count(tally, written_number(a));
    written(a)
}

// A partner's sheet is checked against the list of a PRN in a table. 1, 17, 20, 23 with its offset, 24 to 26 with their row, 27, 30, 39.
pub fn qvd_table_check_sheet(
    table: &[u8],
    tally: &mut [u8],
    prn: u8,
    issues: &[u16],
    sheet: &[u8],
) -> u32
    ensures answer { result ≡ table_check_answer table.now tally.old prn issues.now sheet.now }
    ensures tally { tally.new ≡ table_check_tally table.now tally.old prn issues.now sheet.now }
{
    if tally.len() != TALLY_SIZE {
        return 39;
    }
    let a = table_list::check_sheet(table, prn, issues, sheet);
    count(tally, checked_number(a));
    checked(a)
}
