// What is wrong with a line.
ghost use Rattle.io.specs.Counts.{IsPrefixLen};

use console::put::{put_bytes, put_field, put_found, put_number};
use console::refusals::put_refusal;
use console::turns::{Pass, Turn};
use std::io::Error;

// A line cannot be read.
pub(crate) fn say_unread(rt: &HostRuntime, name: &[u8], p: Pass, e: Error) -> Turn {
    console::turns::say_unread(rt, b"d1", name, b"subframe", p, e)
}

// What is wrong with a line, in words.
pub(crate) fn say_line(rt: &HostRuntime, name: &[u8], p: Pass, what: &[u8]) -> Turn {
    console::turns::say_line(rt, b"d1", name, b"subframe", p, what)
}

// What a line says is refused.
pub(crate) fn say_refused(rt: &HostRuntime, name: &[u8], p: Pass, refusal: u8) -> Turn {
    let mut room = [0u8; 120];
    let a = put_bytes(&mut room, 0, b"refused ");
    let b = put_number(&mut room, a, u64::from(refusal));
    let c = put_bytes(&mut room, b, b": ");
    let n = put_refusal(&mut room, c, refusal);
    say_line(rt, name, p, &room[..n])
}

// What is expected as a word of a line.
fn put_expected(room: &mut [u8], at: usize, word: u8) -> usize
    ensures { IsPrefixLen result room.new }
{
    match word {
        1 => put_bytes(room, at, b"frame"),
        3 => put_bytes(room, at, b"sow"),
        5 => put_bytes(room, at, b"data"),
        6 => put_bytes(room, at, b"56 digits, 0 to 9 and a to f"),
        7 => put_bytes(room, at, b"the end of the line"),
        _ => put_bytes(room, at, b"a number"),
    }
}

// A word of a line is not as expected.
pub(crate) fn say_malformed(
    rt: &HostRuntime,
    name: &[u8],
    p: Pass,
    word: u8,
    found: &[u8],
) -> Turn {
    let mut room = [0u8; 160];
    let a = put_bytes(&mut room, 0, b"word ");
    let b = put_number(&mut room, a, u64::from(word));
    let c = put_bytes(&mut room, b, b": expected ");
    let d = put_expected(&mut room, c, word);
    let n = put_found(&mut room, d, found);
    say_line(rt, name, p, &room[..n])
}

// A number of a line is not the one in its data.
pub(crate) fn say_differs(rt: &HostRuntime, name: &[u8], p: Pass, word: u8, value: u32) -> Turn {
    let mut room = [0u8; 80];
    let a = put_bytes(&mut room, 0, b"word ");
    let b = put_number(&mut room, a, u64::from(word));
    let c = put_bytes(&mut room, b, b": the data");
    let n = put_field(&mut room, c, b"say", u64::from(value));
    say_line(rt, name, p, &room[..n])
}
