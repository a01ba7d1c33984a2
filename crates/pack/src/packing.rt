// A line becomes a message or a frame on standard output.
use crate::faults::{say_malformed, say_refused};
use crate::lines::read_line;
use console::turns::{Pass, Turn};
use contents::parts::Contents;
use verdict::number_of;

// A message or a frame goes to standard output, in a pass that writes.
fn write_bytes(rt: &HostRuntime, p: Pass, bytes: &[u8]) -> Turn {
    if !p.writes || console::out::write(rt, b"pack", bytes) {
        Turn::Written
    } else {
        Turn::Wrong
    }
}

// The frame of a message, with all flags 0, is written, or refused. Contents that were refused (8 and above) have left a message of zeros, for which
// a frame can be made: so a PRN that is refused (4) comes first, and the lowest number is given.
fn write_frame(
    rt: &HostRuntime,
    name: &[u8],
    p: Pass,
    message: &[u8],
    prn: u8,
    refused: u8,
) -> Turn {
    let mut room = [0u8; 125];
    let v = making::make(message, prn, 0, &mut room);
    let made = number_of(v);
    let n = if made != 0 { made } else { refused };
    if n != 0 {
        return say_refused(rt, name, p, true, n);
    }
    write_bytes(rt, p, &room)
}

// Contents are written, as a message or as a frame of a PRN, or refused.
fn write_contents(
    rt: &HostRuntime,
    name: &[u8],
    p: Pass,
    frames: bool,
    prn: u8,
    c: Contents,
) -> Turn {
    let mut room = [0u8; 61];
    let v = writing::write(&mut room, c);
    let n = number_of(v);
    if frames {
        return write_frame(rt, name, p, &room, prn, n);
    }
    if n != 0 {
        return say_refused(rt, name, p, false, n);
    }
    write_bytes(rt, p, &room)
}

// A line that is neither blank nor a comment.
fn pack_message(rt: &HostRuntime, name: &[u8], p: Pass, frames: bool, s: &[u8]) -> Turn {
    match read_line(s, frames) {
        Ok((prn, contents)) => write_contents(rt, name, p, frames, prn, contents),
        Err(fault) => say_malformed(rt, name, p, frames, s, fault),
    }
}

// A line without a byte order mark.
fn pack_text(rt: &HostRuntime, name: &[u8], p: Pass, frames: bool, s: &[u8]) -> Turn {
    if console::words::is_remark(s) {
        return Turn::Nothing;
    }
    pack_message(rt, name, p, frames, s)
}

// A line.
pub(crate) fn pack_line(rt: &HostRuntime, name: &[u8], p: Pass, frames: bool, s: &[u8]) -> Turn {
    let a = console::words::text_start(s, p.number);
    pack_text(rt, name, p, frames, &s[a..])
}
