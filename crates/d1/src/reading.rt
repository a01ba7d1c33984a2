// Subframes of a file, a line for each.
ghost use Rattle.io.specs.Counts.{IsPrefixLen};

use crate::fields::{frame_of, put_hex, second_of};
use console::input::Input;
use console::put::{put_byte, put_text};
use console::turns::Turn;
use verdict::number_of;

// Information bits: FraID, SOW and the bytes.
fn put_data(room: &mut [u8], d: &[u8]) -> usize
    ensures { IsPrefixLen result room.new }
{
    let numbers = [u64::from(frame_of(d)), u64::from(second_of(d))];
    let a = put_text(room, 0, b"frame # sow # data ", &numbers);
    put_hex(room, a, d)
}

// A line goes to standard output.
fn write_line(rt: &HostRuntime, line: &[u8]) -> Turn {
    if console::out::write(rt, b"d1", line) {
        Turn::Written
    } else {
        Turn::Wrong
    }
}

// The line of a subframe.
fn write_data(rt: &HostRuntime, d: &[u8]) -> Turn {
    let mut room = [0u8; 120];
    let a = put_data(&mut room, d);
    let n = put_byte(&mut room, a, b'\n');
    write_line(rt, &room[..n])
}

// The line of a refusal.
fn write_refused(rt: &HostRuntime, refusal: u8) -> Turn {
    let mut room = [0u8; 40];
    let numbers = [u64::from(refusal)];
    let n = put_text(&mut room, 0, b"refused #\n", &numbers);
    write_line(rt, &room[..n])
}

// The line of a subframe's bytes.
fn show_subframe(rt: &HostRuntime, s: &[u8]) -> Turn {
    let mut d = [0u8; 28];
    let refusal = number_of(d1_subframes::read_subframe(&mut d, s));
    if refusal != 0 {
        return write_refused(rt, refusal);
    }
    write_data(rt, &d)
}

// The next subframe of a file.
fn turn(rt: &HostRuntime, input: &mut Input, name: &[u8], done: u64) -> Turn {
    let mut room = [0u8; 38];
    let p = console::input::fill(input, &mut room);
    if let Some(e) = p.error {
        console::say::say_errno_where(rt, b"d1", name, b"offset", done, e);
        return Turn::Wrong;
    }
    let n = p.count;
    if n == 0 {
        return Turn::Ended;
    }
    show_subframe(rt, &room[..n])
}

// All subframes of a file, and how the last turn ended.
pub(crate) fn show_subframes(rt: &HostRuntime, input: &mut Input, name: &[u8]) -> Turn {
    let mut last = Turn::Nothing;
    for i in 0..100000000000000000u64 {
        last = turn(rt, input, name, 38 * i);
        if !last.goes_on() {
            break;
        }
    }
    last
}
