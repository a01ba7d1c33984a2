// Subframes of a file, a line for each.
use crate::lines::put_fields;
use console::input::Input;
use console::put::{put_byte, put_bytes, put_number};
use console::turns::Turn;
use verdict::number_of;

// A line goes to standard output.
fn write_line(rt: &HostRuntime, line: &[u8]) -> Turn {
    if console::out::write(rt, b"cnav1", line) {
        Turn::Written
    } else {
        Turn::Wrong
    }
}

// The line of a subframe.
fn write_fields(rt: &HostRuntime, fields: &[i64; 31]) -> Turn {
    let mut room = [0u8; 800];
    let a = put_fields(&mut room, fields);
    let n = put_byte(&mut room, a, b'\n');
    write_line(rt, &room[..n])
}

// The line of a refusal.
fn write_refused(rt: &HostRuntime, refusal: u8) -> Turn {
    let mut room = [0u8; 40];
    let a = put_bytes(&mut room, 0, b"refused ");
    let b = put_number(&mut room, a, u64::from(refusal));
    let n = put_byte(&mut room, b, b'\n');
    write_line(rt, &room[..n])
}

// The line of a subframe's bytes.
fn show_subframe(rt: &HostRuntime, s: &[u8]) -> Turn {
    match subframe2::read(s) {
        Ok(fields) => write_fields(rt, &fields),
        Err(r) => write_refused(rt, number_of(Err(r))),
    }
}

// The next subframe of a file.
fn turn(rt: &HostRuntime, input: &mut Input, name: &[u8], done: u64) -> Turn {
    let mut room = [0u8; 75];
    let p = console::input::fill(input, &mut room);
    if let Some(e) = p.error {
        console::say::say_errno_where(rt, b"cnav1", name, b"offset", done, e);
        return Turn::Wrong;
    }
    let n = p.count;
    if n == 0 {
        return Turn::Ended;
    }
    show_subframe(rt, &room[..n])
}

// All subframes of a file, and how the last turn ended.
pub(crate) fn show_subframes(rt: &HostRuntime, input: &mut Input, name: &[u8]) -> Turn {
    let mut last = Turn::Nothing;
    for i in 0..100000000000000000u64 {
        last = turn(rt, input, name, 75 * i);
        if !last.goes_on() {
            break;
        }
    }
    last
}
