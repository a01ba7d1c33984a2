// The cases: frames of 125 bytes in a file, taken one after another into a ledger for PRN 60.
use crate::ask::issues;
use crate::say::{say, say_failed, say_row, say_text};
use console::input::{Input, fill};
use held_mask::LEDGER_SIZE;
use ledger::Ledger;
use ledger::open::open;
use ledger::take::take;
use list::rows::{row_at, row_count};
use verdict::number_of;

// A ledger for PRN 60.
pub(crate) fn opened() -> Ledger {
    let mut ledger = [0u8; LEDGER_SIZE];
    let _ = open(&mut ledger, 60);
    ledger
}

// What the next frame of a file is answered; nothing where the file has ended.
pub(crate) fn take_next(file: &mut Input, ledger: &mut Ledger) -> Option<u64> {
    let mut frame = [0u8; 125];
    let n = fill(file, &mut frame).count;
    if n == 0 {
        return None;
    }
    Some(u64::from(number_of(take(ledger, &frame[..n]))))
}

// How many rows the list has.
fn rows(ledger: &[u8]) -> u16 {
    let issues = issues();
    match row_count(ledger, &issues) {
        Ok(n) => n,
        Err(_) => 0,
    }
}

// Writes the list's n-th row, if it has one.
fn say_nth(rt: &HostRuntime, ledger: &[u8], n: u16) {
    let issues = issues();
    let Ok(row) = row_at(ledger, &issues, n) else {
        return;
    };
    say_row(rt, row);
}

// Writes how many rows the list has.
fn say_count(rt: &HostRuntime, count: u16) {
    let numbers = [u64::from(count)];
    say_text(rt, b", rows #", &numbers);
}

// Writes how many rows the list has, and each of them.
fn say_rows(rt: &HostRuntime, ledger: &[u8]) {
    let count = rows(ledger);
    say_count(rt, count);
    for i in 0..count {
        say_nth(rt, ledger, i + 1);
    }
}

// Writes the number of a frame, its answer and the list after it, on lines of their own.
fn say_listed(rt: &HostRuntime, ledger: &[u8], number: u64, answer: u64) {
    let numbers = [number, answer];
    say_text(rt, b"\n  frame #: #", &numbers);
    say_rows(rt, ledger);
}

// Writes the answer to a frame.
fn say_answer(rt: &HostRuntime, answer: u64) {
    let numbers = [answer];
    say_text(rt, b" #", &numbers);
}

// Takes the next frame and writes its answer; where the case is listed, with the list after it. False at the end of
// the file.
fn turn(
    rt: &HostRuntime,
    file: &mut Input,
    ledger: &mut Ledger,
    number: u64,
    listed: bool,
) -> bool {
    let Some(answer) = take_next(file, ledger) else {
        return false;
    };
    if listed {
        say_listed(rt, ledger, number, answer);
    } else {
        say_answer(rt, answer);
    }
    true
}

// Takes the frames of a file and writes their answers.
fn turns(rt: &HostRuntime, file: &mut Input, listed: bool) {
    let mut ledger = opened();
    for number in 1..1001 {
        if !turn(rt, file, &mut ledger, number, listed) {
            break;
        }
    }
}

// The file of a name; nothing where it cannot be opened, and it has been said why.
pub(crate) fn opened_file(rt: &HostRuntime, name: &[u8]) -> Option<Input> {
    match console::input::open(rt, name) {
        Ok(file) => Some(file),
        Err(e) => {
            say_failed(rt, name, e);
            None
        }
    }
}

// Runs the case whose frames are in the file of its name.
fn case(rt: &HostRuntime, name: &[u8], listed: bool) {
    let Some(mut file) = opened_file(rt, name) else {
        return;
    };
    say(rt, name);
    say(rt, b":");
    turns(rt, &mut file, listed);
    say(rt, b"\n");
}

// Runs the cases whose names are the words of a text.
fn cases(rt: &HostRuntime, names: &[u8], listed: bool) {
    for name in names.split(|&b| b == b' ') {
        case(rt, name, listed);
    }
}

// The cases of refusals.
pub(crate) fn refusals(rt: &HostRuntime) {
    cases(
        rt,
        b"epochs 46-set-bits 48-set-bits empty-mask ends slots frames lowest-first printed-across",
        false,
    );
}

// The cases of the list: the whole list, the slips that look right, and what a row asks.
pub(crate) fn the_list(rt: &HostRuntime) {
    cases(
        rt,
        b"whole-list mask-in-front one-bit ssr-alone older-clock refused-six unusable-clock no-mask amiss zeros",
        true,
    );
}

// The cases of CR 3: which of two records for a slot counts.
pub(crate) fn the_newest(rt: &HostRuntime) {
    cases(
        rt,
        b"replayed-hour half-a-day over-midnight another-issue dropped-clock unusable-newer own-epochs",
        true,
    );
}

// The cases of CR 2: code biases, and URA codes that replace an orbit's own.
pub(crate) fn biases_and_codes(rt: &HostRuntime) {
    cases(rt, b"biases", false);
    cases(rt, b"codes", true);
    cases(rt, b"70-set-bits", false);
}
