// A partner's sheet, held against our own list.
ghost use Rattle.io.specs.Counts.{IsPrefixLen};

use crate::file::ROOM;
use crate::showing::put_wrong;
use crate::writing::{how, prn_of};
use console::put::{cursor_in, put_text};
use log_files::command::take_night;
use log_files::heard::Heard;
use sheet_checking::{Checked, Fault, check_sheet};
use table_form::ledger_for;

// The line of a sheet that is accepted.
fn put_accepted(room: &mut [u8], left: u16) -> usize
    ensures { IsPrefixLen result room.new }
{
    put_text(room, 0, b"accepted left-out #\n", &[u64::from(left)])
}

// The line of a sheet that is refused by a number alone.
fn put_refused(room: &mut [u8], number: u8) -> usize
    ensures { IsPrefixLen result room.new }
{
    put_text(room, 0, b"refused #\n", &[u64::from(number)])
}

// The line of a sheet that is refused for a row.
fn put_row_refused(room: &mut [u8], number: u8, row: u16) -> usize
    ensures { IsPrefixLen result room.new }
{
    let numbers = [u64::from(number), u64::from(row)];
    put_text(room, 0, b"refused # row #\n", &numbers)
}

// The line of an answer.
fn put_checked(room: &mut [u8], c: Checked) -> usize
    ensures { IsPrefixLen result room.new }
{
    match c {
        Ok(left) => put_accepted(room, left),
        Err(Fault::Number(number)) => put_refused(room, number),
        Err(Fault::Wrong(at)) => put_wrong(room, at),
        Err(Fault::Unknown(row)) => put_row_refused(room, 24, row),
        Err(Fault::Other(row)) => put_row_refused(room, 25, row),
        Err(Fault::Repeated(row)) => put_row_refused(room, 26, row),
    }
}

// The status of an answer: 0 where the sheet is accepted, 3 where it is not.
fn status_of(c: Checked) -> u8 {
    if c.is_ok() { 0 } else { 3 }
}

// A sheet is checked against the ledger and the issues, and the answer goes to standard output; the answer here is the status.
fn write_checked(rt: &HostRuntime, sheet: &[u8], heard: &Heard) -> u8 {
    let mut room = [0u8; 80];
    let ledger = ledger_for(&heard.table, prn_of(heard));
    let c = check_sheet(ledger, &heard.issues, sheet);
    let n = put_checked(&mut room, c);
    if console::out::write(rt, b"sheet", &room[..n]) {
        status_of(c)
    } else {
        1
    }
}

// A sheet, and PRN, ISSUES and the logs from argument i on, of count; the answer is the status.
fn check(rt: &HostRuntime, sheet: &[u8], i: usize, count: usize, mixed: bool) -> u8 {
    let mut heard = Heard::new();
    match take_night(rt, b"sheet", i, count, how(mixed), &mut heard) {
        Ok(()) => write_checked(rt, sheet, &heard),
        Err(_) => 1,
    }
}

// FILE is argument i of count, PRN, ISSUES and the logs stand behind it; the answer is the status.
pub(crate) fn run(rt: &HostRuntime, i: usize, count: usize, mixed: bool) -> u8 {
    if i >= count {
        return 2;
    }
    let mut sheet = [0u8; ROOM];
    let Some(length) = crate::file::read_arg(rt, i, &mut sheet) else {
        return 1;
    };
    let n = cursor_in(&sheet, length);
    check(rt, &sheet[..n], i + 1, count, mixed)
}
