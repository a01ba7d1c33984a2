// The PRNs of an argument, such as 60 or 59,60,61: a ledger is opened for each, in their order.
use crate::heard::{Failed, Heard};
use console::say::say_file;
use console::words::number_of;

// The number that a word says; 0, which is no PRN, where it says none below 256.
fn prn_in(word: &[u8]) -> u8 {
    match number_of(word) {
        Some(x @ 0..=255) => x as u8,
        _ => 0,
    }
}

// No ledger is opened for a word of the argument, for which the table answered a number.
fn say_prn(rt: &HostRuntime, program: &[u8], s: &[u8], word: &[u8], number: u8) {
    if word.is_empty() {
        say_file(rt, program, s, b"a PRN is missing");
        return;
    }
    match number {
        28 => say_file(rt, program, word, b"this PRN is given twice"),
        29 => say_file(rt, program, s, b"more than four PRNs"),
        _ => say_file(
            rt,
            program,
            word,
            b"no ledger is made for this PRN, only for 1 to 5 and 59 to 63",
        ),
    };
}

// A ledger is opened for a word of the argument.
fn open_word(
    rt: &HostRuntime,
    program: &[u8],
    s: &[u8],
    word: &[u8],
    heard: &mut Heard,
) -> Result<(), Failed> {
    let prn = prn_in(word);
    let number = verdict::number_of(table::open(&mut heard.table, prn));
    if number != 0 {
        say_prn(rt, program, s, word, number);
        return Err(Failed);
    }
    heard.accounts.open(prn);
    Ok(())
}

// Ledgers are opened for the PRNs of argument i, in an empty table; a fifth has no room. Of one PRN all is one word.
pub(crate) fn open_for(
    rt: &HostRuntime,
    program: &[u8],
    i: usize,
    several: bool,
    heard: &mut Heard,
) -> Result<(), Failed> {
    let mut room = io::buffer();
    let n = console::args::argument(rt, i, &mut room).count;
    let s = &room[..n];
    for word in s.split(|&b| several && b == b',') {
        open_word(rt, program, s, word, heard)?;
    }
    Ok(())
}
