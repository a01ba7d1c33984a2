// Writing the correction sheet into a lent room: 02, CR 7.
#![tactic(auto)]

ghost use Rattle.std.specs.Prelude.{◌≡◌, ◌+◌, ◌*◌, ◌≤◌, length};
ghost use Rattle.bits.specs.Bytes.{store_at};
ghost use Rattle.broadcast.specs.Issues.{issues_refusal};
ghost use Rattle.list.specs.Rows.{list_in};
ghost use Rattle.sheet_form.specs.Layout.{row_fields, sheet_of, sheet_length};
ghost use Rattle.sheet_writing.specs.Writing.{sheet_says, sheet_answer, sheet_room, header_of};

use held_mask::{has_mask, mask_iodp, mask_ssr};
use list::rows::row_count;
use row::slot_row;
use sheet_fields::{END_SIZE, HEADER_SIZE, ROW_SIZE, put_end, put_header, put_row};
use sheet_form::Header;
use slots::Slot;
use verdict::Refused;

// The most rows of a sheet: as many as slots have a satellite. No list has more.
pub const MOST_ROWS: u16 = 174;

// The length of the sheet that was written, or one of the refusal numbers.
pub type Sheet = Result<u16, Refused>;

// The fields of the rows are put behind the header, one for each slot that qualifies; says where the end is to stand.
fn put_rows(room: &mut [u8], ledger: &[u8], issues: &[u16]) -> usize
    requires { (length issues.now ≡ 255) × (sheet_length (length (list_in ledger.now issues.now)) ≤ length room.old) }
    ensures offset { result ≡ 8 + 24 * length (list_in ledger.now issues.now) }
    ensures bytes { room.new ≡ store_at room.old 8 (row_fields (list_in ledger.now issues.now)) }
{
    let mut at = HEADER_SIZE;
    for i in 0..255 {
        let slot = (i + 1) as u8;
        let a = slot_row(ledger, Slot(slot), issues[i]);
        let Ok(row) = a else {
            continue;
        };
        put_row(&mut room[at..], row);
        at += ROW_SIZE;
    }
    at
}

// The sheet of a header and of a ledger's list is put: the header into all of the room, each row and the end into what is left of it.
fn put_sheet(room: &mut [u8], ledger: &[u8], issues: &[u16], h: Header)
    requires { (length issues.now ≡ 255) × (sheet_length (length (list_in ledger.now issues.now)) ≤ length room.old) }
    ensures { room.new ≡ store_at room.old 0 (sheet_of h (list_in ledger.now issues.now)) }
{
    put_header(room, h);
    let at = put_rows(room, ledger, issues);
    put_end(&mut room[at..]);
}

// The header of a ledger's list of n rows.
fn header_of(ledger: &[u8], n: u16) -> Header
    ensures { result ≡ header_of ledger.now n }
{
    let prn = lent::byte(ledger, 0);
    let ssr = mask_ssr(ledger);
    let iodp = mask_iodp(ledger);
    Header {
        prn,
        ssr,
        iodp,
        rows: n,
    }
}

// The sheet of a ledger's list of n rows is put into the room: refusals 20, 22, in this order.
fn write_list(room: &mut [u8], ledger: &[u8], issues: &[u16], n: u16) -> Sheet
    requires { (issues_refusal issues.now ≡ 0) × (n ≡ length (list_in ledger.now issues.now)) }
    ensures answer { sheet_says result ≡ sheet_answer ledger.now issues.now room.old }
    ensures bytes { room.new ≡ sheet_room ledger.now issues.now room.old }
{
    if !has_mask(ledger) {
        return Err(Refused(20));
    }
    let size = HEADER_SIZE + ROW_SIZE * (n as usize) + END_SIZE;
    if room.len() < size {
        return Err(Refused(22));
    }
    let h = header_of(ledger, n);
    put_sheet(room, ledger, issues, h);
    Ok(size as u16)
}

// The sheet of a ledger's list is put into the room: refusals 1, 17, 20, 22, in this order. Room past the sheet, and all room on a refusal, is as it
// was.
pub fn write_sheet(room: &mut [u8], ledger: &[u8], issues: &[u16]) -> Sheet
    ensures answer { sheet_says result ≡ sheet_answer ledger.now issues.now room.old }
    ensures bytes { room.new ≡ sheet_room ledger.now issues.now room.old }
{
    let n = row_count(ledger, issues)?;
    write_list(room, ledger, issues, n)
}
