// What the list answers to each question, and its correction sheet, after the first three frames of the whole list.
use crate::cases::{opened, opened_file, take_next};
use crate::say::{say, say_text};
use crate::sheet::say_sheets;
use console::input::Input;
use ledger::Ledger;
use list::rows::{row_at, row_of_slot};
use row::RowAnswer;
use verdict::Refused;

// The broadcast issues of every case: slot 19 is 37, slot 64 is 88, others none.
pub(crate) fn issues() -> [u16; 255] {
    let mut out = [65535u16; 255];
    out[18] = 37;
    out[63] = 88;
    out
}

// The issues with one that is none, for slot 201.
fn ill_issues() -> [u16; 255] {
    let mut out = issues();
    out[200] = 1024;
    out
}

// Writes an answer on the rest of a line: the slot of a row, or the refusal.
fn say_answer(rt: &HostRuntime, a: RowAnswer) {
    match a {
        Ok(row) => {
            let numbers = [u64::from(row.slot.0)];
            say_text(rt, b": slot #\n", &numbers);
        }
        Err(Refused(n)) => {
            let numbers = [u64::from(n)];
            say_text(rt, b": #\n", &numbers);
        }
    }
}

// Asks for the row at a position.
fn ask_at(rt: &HostRuntime, text: &[u8], ledger: &[u8], issues: &[u16], n: u16) {
    let numbers = [u64::from(n)];
    say_text(rt, text, &numbers);
    say_answer(rt, row_at(ledger, issues, n));
}

// Asks for the row of a slot.
fn ask_slot(rt: &HostRuntime, text: &[u8], ledger: &[u8], issues: &[u16], slot: u16) {
    let numbers = [u64::from(slot)];
    say_text(rt, text, &numbers);
    say_answer(rt, row_of_slot(ledger, issues, slot));
}

// Asks for rows by position.
fn ask_rows(rt: &HostRuntime, ledger: &[u8], good: &[u16]) {
    let text = b"  row #";
    ask_at(rt, text, ledger, good, 0);
    ask_at(rt, text, ledger, good, 1);
    ask_at(rt, text, ledger, good, 2);
}

// Asks for rows by slot.
fn ask_slots(rt: &HostRuntime, ledger: &[u8], good: &[u16]) {
    let text = b"  slot #";
    ask_slot(rt, text, ledger, good, 0);
    ask_slot(rt, text, ledger, good, 19);
    ask_slot(rt, text, ledger, good, 64);
    ask_slot(rt, text, ledger, good, 255);
    ask_slot(rt, text, ledger, good, 256);
}

// Asks with too few issues.
fn ask_few(rt: &HostRuntime, ledger: &[u8]) {
    let few = [65535u16; 254];
    ask_slot(rt, b"  254 issues, slot #", ledger, &few, 256);
}

// Asks with ill issues.
fn ask_ill(rt: &HostRuntime, ledger: &[u8]) {
    let ill = ill_issues();
    ask_slot(rt, b"  an issue of 1024, slot #", ledger, &ill, 256);
    ask_slot(rt, b"  an issue of 1024, slot #", ledger, &ill, 64);
    ask_at(rt, b"  an issue of 1024, row #", ledger, &ill, 0);
}

// The ledger after the first three frames of a file.
fn after_three(file: &mut Input) -> Ledger {
    let mut ledger = opened();
    take_next(file, &mut ledger);
    take_next(file, &mut ledger);
    take_next(file, &mut ledger);
    ledger
}

// Asks, and writes the answers.
pub(crate) fn asked(rt: &HostRuntime) {
    let name = b"whole-list";
    let Some(mut file) = opened_file(rt, name) else {
        return;
    };
    let ledger = after_three(&mut file);
    let good = issues();
    say(rt, b"asked of the whole list:\n");
    ask_rows(rt, &ledger, &good);
    ask_slots(rt, &ledger, &good);
    ask_few(rt, &ledger);
    ask_ill(rt, &ledger);
    say_sheets(rt, &ledger, &good);
}
