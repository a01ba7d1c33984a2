// The correction sheet of the whole list, which 02 prints in CR 7.
use crate::say::{say, say_text};
use sheet_writing::{Sheet, write_sheet};
use verdict::Refused;

// A hexadecimal digit.
fn digit(x: u8) -> u8 {
    match x % 16 {
        d @ 0..=9 => b'0' + d,
        d => b'A' - 10 + d,
    }
}

// Writes a byte in two hexadecimal digits, after a blank.
fn say_byte(rt: &HostRuntime, b: u8) {
    let text = [b' ', digit(b / 16), digit(b)];
    say(rt, &text);
}

// Writes the first n bytes of a room.
fn say_bytes(rt: &HostRuntime, room: &[u8], n: usize) {
    for &b in room.iter().take(n) {
        say_byte(rt, b);
    }
}

// Writes the sheet that a room was lent for, or the refusal, on the rest of a line.
fn say_sheet(rt: &HostRuntime, room: &[u8], s: Sheet) {
    match s {
        Ok(length) => say_bytes(rt, room, usize::from(length)),
        Err(Refused(n)) => {
            let numbers = [u64::from(n)];
            say_text(rt, b" #", &numbers);
        }
    }
    say(rt, b"\n");
}

// Writes the sheet of a list, and what is answered where the room is one byte too short for it.
pub(crate) fn say_sheets(rt: &HostRuntime, ledger: &[u8], issues: &[u16]) {
    let mut room = [0u8; 64];
    let mut short = [0u8; 34];
    let s = write_sheet(&mut room, ledger, issues);
    say(rt, b"  sheet");
    say_sheet(rt, &room, s);
    let t = write_sheet(&mut short, ledger, issues);
    say(rt, b"  sheet in room for 34:");
    say_sheet(rt, &short, t);
}
