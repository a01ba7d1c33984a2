// What is wrong with a line.
use crate::reader::Fault;
use console::put::{put_bytes, put_found, put_text};
use console::refusals::put_refusal;
use console::turns::{Pass, Turn};
use console::words::next_word;
use std::io::Error;

// What is written for a line.
fn thing(frames: bool) -> &'static [u8] {
    if frames { b"frame" } else { b"message" }
}

// A line cannot be read.
pub(crate) fn say_unread(rt: &HostRuntime, name: &[u8], p: Pass, frames: bool, e: Error) -> Turn {
    console::turns::say_unread(rt, b"pack", name, thing(frames), p, e)
}

// What is wrong with a line, in words.
pub(crate) fn say_line(rt: &HostRuntime, name: &[u8], p: Pass, frames: bool, what: &[u8]) -> Turn {
    console::turns::say_line(rt, b"pack", name, thing(frames), p, what)
}

// What a line says is refused.
pub(crate) fn say_refused(rt: &HostRuntime, name: &[u8], p: Pass, frames: bool, n: u8) -> Turn {
    let mut room = [0u8; 120];
    let a = put_text(&mut room, 0, b"refused #: ", &[u64::from(n)]);
    let k = put_refusal(&mut room, a, n);
    say_line(rt, name, p, frames, &room[..k])
}

// A line is malformed: what was expected at which word, and the word that was found.
pub(crate) fn say_malformed(
    rt: &HostRuntime,
    name: &[u8],
    p: Pass,
    frames: bool,
    s: &[u8],
    fault: Fault,
) -> Turn {
    let w = next_word(s, fault.at);
    let from = w.from;
    let to = w.to;
    let mut room = [0u8; 160];
    let a = put_text(&mut room, 0, b"word #: expected ", &[u64::from(fault.word)]);
    let b = put_bytes(&mut room, a, fault.expected);
    let k = put_found(&mut room, b, &s[from..to]);
    say_line(rt, name, p, frames, &room[..k])
}
