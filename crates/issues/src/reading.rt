// The subframes of a file, each joined into the broadcast list.
ghost use Rattle.console.specs.Lines.{Inside};

use console::input::{Input, is_standard};
use console::lines::{Lines, Step, next_line};
use console::put::{put_bytes, put_number};
use console::refusals::put_refusal;
use console::say::{say_found, say_where};
use console::turns::Turn;
use inputs::files::open_named;
use inputs::hex::bytes_into;
use inputs::record_lines::{Fault, Kind, heard_of};

// The subframe of a line is refused.
fn say_refused(rt: &HostRuntime, name: &[u8], number: u64, refusal: u8) {
    let mut room = [0u8; 120];
    let a = put_bytes(&mut room, 0, b"refused ");
    let b = put_number(&mut room, a, u64::from(refusal));
    let c = put_bytes(&mut room, b, b": ");
    let n = put_refusal(&mut room, c, refusal);
    say_where(rt, b"issues", name, b"line", number, &room[..n]);
}

// A line is no record: the word that is wrong.
fn say_fault(rt: &HostRuntime, name: &[u8], number: u64, fault: Fault, word: &[u8]) {
    let what = match fault {
        Fault::Satellite => b"expected a BeiDou satellite, C01 to C63".as_slice(),
        Fault::Digits => b"expected an even number of hexadecimal digits".as_slice(),
        _ => b"expected the end of the line after the subframe".as_slice(),
    };
    say_found(rt, b"issues", name, number, what, word);
}

// The subframe that digits say is joined for a satellite, or it is said that it is refused.
fn hear_digits(
    rt: &HostRuntime,
    name: &[u8],
    number: u64,
    prn: u8,
    digits: &[u8],
    issues: &mut [u16; 255],
) {
    let mut bytes = [0u8; 32768];
    let n = bytes_into(digits, &mut bytes);
    let refusal = inputs::heard::hear(issues, prn, &bytes[..n]);
    if refusal != 0 {
        say_refused(rt, name, number, refusal);
    }
}

// A line: how the turn ended.
fn hear_line(
    rt: &HostRuntime,
    name: &[u8],
    number: u64,
    s: &[u8],
    issues: &mut [u16; 255],
) -> Turn {
    let r = heard_of(s, number);
    let from = r.from;
    let to = r.to;
    let word = &s[from..to];
    match r.kind {
        Kind::Cnav1(prn) => {
            hear_digits(rt, name, number, prn, word, issues);
            Turn::Written
        }
        Kind::Wrong(fault) => {
            say_fault(rt, name, number, fault, word);
            Turn::Wrong
        }
        _ => Turn::Nothing,
    }
}

// A step of the reading: how the turn ended.
fn turn(rt: &HostRuntime, name: &[u8], room: &[u8], l: Lines, issues: &mut [u16; 255]) -> Turn
    requires { Inside l room.now }
{
    let a = l.start;
    let b = l.end;
    match l.step {
        Step::End => Turn::Ended,
        Step::Failed(e) => {
            console::say::say_errno(rt, b"issues", name, e);
            Turn::Wrong
        }
        Step::Long => {
            say_where(
                rt,
                b"issues",
                name,
                b"line",
                l.number,
                b"longer than 65536 bytes",
            );
            Turn::Wrong
        }
        Step::Line => hear_line(rt, name, l.number, &room[a..b], issues),
    }
}

// All lines are heard; false where something is wrong, and it has been said what.
fn hear_lines(
    rt: &HostRuntime,
    input: &mut Input,
    name: &[u8],
    room: &mut [u8],
    issues: &mut [u16; 255],
) -> bool {
    let mut l = console::lines::begin();
    for _ in 0..u64::MAX {
        l = next_line(input, room, l);
        let t = turn(rt, name, room, l, issues);
        if !t.goes_on() {
            return t == Turn::Ended;
        }
    }
    false
}

// An open file is heard; false where something is wrong.
fn hear_open(rt: &HostRuntime, input: &mut Input, name: &[u8], issues: &mut [u16; 255]) -> bool {
    let mut room = console::lines::line_room();
    hear_lines(rt, input, name, &mut room, issues)
}

// The file of a name is heard; false where something is wrong, and it has been said what.
pub(crate) fn hear_named(rt: &HostRuntime, name: &[u8], issues: &mut [u16; 255]) -> bool {
    let Some(mut input) = open_named(rt, b"issues", name) else {
        return false;
    };
    if is_standard(&input) {
        return hear_open(rt, &mut input, b"standard input", issues);
    }
    hear_open(rt, &mut input, name, issues)
}
