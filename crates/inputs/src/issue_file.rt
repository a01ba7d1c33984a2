// The issues of the broadcast messages, from a text file: a line such as C19 37 for each satellite.
ghost use Rattle.std.specs.Prelude.{◌≤◌, IfOk, IfSome};
ghost use Rattle.console.specs.Lines.{Inside};

use crate::ends::{is_over, least};
use crate::files::{is_arg, is_readable, open_named};
use crate::satellites::satellite;
use console::args::argument;
use console::input::Input;
use console::lines::{Lines, Step, next_line};
use console::say::{say_found, say_where};
use console::turns::Turn;
use console::words::{Word, next_word, number_of, text_start};

// What is wrong with a line: it has no satellite, no issue, or something behind them; with the word that is wrong.
#[derive(Clone, Copy)]
enum Fault {
    Satellite(Word),
    Issue(Word),
    End(Word),
}

// The issue that the last word of a line says, from a position on.
fn issue_at(s: &[u8], at: usize) -> Result<u16, Fault> {
    let w = next_word(s, at);
    let from = w.from;
    let to = w.to;
    let Some(x @ 0..=1023) = number_of(&s[from..to]) else {
        return Err(Fault::Issue(w));
    };
    if !is_over(s, to) {
        return Err(Fault::End(next_word(s, to)));
    }
    Ok(x as u16)
}

// The slot and the issue that a line gives from a position on, if it says anything.
fn line_gives(s: &[u8], at: usize) -> Result<Option<(u8, u16)>, Fault>
    ensures { IfOk result (λ g. IfSome g (λ p. (1 ≤ p.0) × (p.0 ≤ 174))) }
{
    let w = next_word(s, at);
    let from = w.from;
    let to = w.to;
    if is_over(s, at) {
        return Ok(None);
    }
    let Some(slot) = satellite(&s[from..to]) else {
        return Err(Fault::Satellite(w));
    };
    let issue = issue_at(s, to)?;
    Ok(Some((slot, issue)))
}

// A fault of a line, in words, with the word that is wrong.
fn say_fault(rt: &HostRuntime, program: &[u8], name: &[u8], number: u64, s: &[u8], fault: Fault) {
    let (what, w) = match fault {
        Fault::Satellite(w) => (
            b"expected a satellite: C01 to C63, or G, E or R with 01 to 37".as_slice(),
            w,
        ),
        Fault::Issue(w) => (b"expected an issue, 0 to 1023".as_slice(), w),
        Fault::End(w) => (
            b"expected the end of the line after the issue".as_slice(),
            w,
        ),
    };
    let to = least(w.to, s.len());
    let from = least(w.from, to);
    say_found(rt, program, name, number, what, &s[from..to]);
}

// A satellite is named a second time.
fn say_twice(rt: &HostRuntime, program: &[u8], name: &[u8], number: u64, before: u64) {
    let mut room = [0u8; 80];
    let a = console::put::put_bytes(&mut room, 0, b"satellite named before, on line ");
    let n = console::put::put_number(&mut room, a, before);
    say_where(rt, program, name, b"line", number, &room[..n]);
}

// A slot's issue is put on the list, with the line that gave it; false where the slot has one already.
fn put_issue(
    rt: &HostRuntime,
    program: &[u8],
    name: &[u8],
    number: u64,
    slot: u8,
    issue: u16,
    issues: &mut [u16; 255],
    seen: &mut [u64; 255],
) -> bool
    requires { (1 ≤ slot) × (slot ≤ 174) }
{
    let i = usize::from(slot) - 1;
    let before = seen[i];
    if before != 0 {
        say_twice(rt, program, name, number, before);
        return false;
    }
    seen[i] = number;
    issues[i] = issue;
    true
}

// A line is taken; false where something is wrong with it, and it has been said what.
fn take_line(
    rt: &HostRuntime,
    program: &[u8],
    name: &[u8],
    number: u64,
    s: &[u8],
    issues: &mut [u16; 255],
    seen: &mut [u64; 255],
) -> bool {
    match line_gives(s, text_start(s, number)) {
        Ok(None) => true,
        Ok(Some((slot, issue))) => put_issue(rt, program, name, number, slot, issue, issues, seen),
        Err(fault) => {
            say_fault(rt, program, name, number, s, fault);
            false
        }
    }
}

// A step of the reading: how the turn ended.
fn turn(
    rt: &HostRuntime,
    program: &[u8],
    name: &[u8],
    room: &[u8],
    l: Lines,
    issues: &mut [u16; 255],
    seen: &mut [u64; 255],
) -> Turn
    requires { Inside l room.now }
{
    let a = l.start;
    let b = l.end;
    let step = l.step;
    match step {
        Step::End => Turn::Ended,
        Step::Failed(e) => {
            console::say::say_errno(rt, program, name, e);
            Turn::Wrong
        }
        Step::Long => {
            say_where(
                rt,
                program,
                name,
                b"line",
                l.number,
                b"longer than 65536 bytes",
            );
            Turn::Wrong
        }
        Step::Line => {
            if take_line(rt, program, name, l.number, &room[a..b], issues, seen) {
                Turn::Nothing
            } else {
                Turn::Wrong
            }
        }
    }
}

// All lines are taken; false where something is wrong.
fn all_lines(
    rt: &HostRuntime,
    program: &[u8],
    input: &mut Input,
    name: &[u8],
    room: &mut [u8],
    issues: &mut [u16; 255],
    seen: &mut [u64; 255],
) -> bool {
    let mut l = console::lines::begin();
    for _ in 0..u64::MAX {
        l = next_line(input, room, l);
        let t = turn(rt, program, name, room, l, issues, seen);
        if !t.goes_on() {
            return t == Turn::Ended;
        }
    }
    false
}

// Whether argument i is an ISSUES file that may be read, or none; where not, it has been said why.
pub fn may_read_issues(rt: &HostRuntime, program: &[u8], i: usize) -> bool {
    if is_arg(rt, i, b"none") {
        return true;
    }
    is_readable(rt, program, i)
}

// The issues of a file go on the list; false where something is wrong, and it has been said what.
fn read_file(rt: &HostRuntime, program: &[u8], name: &[u8], issues: &mut [u16; 255]) -> bool {
    let Some(mut input) = open_named(rt, program, name) else {
        return false;
    };
    let mut room = console::lines::line_room();
    let mut seen = [0u64; 255];
    all_lines(rt, program, &mut input, name, &mut room, issues, &mut seen)
}

// The list of issues from the file of argument i; none leaves the list as it is. False where something is wrong, and it has been said what.
pub fn read_issues(rt: &HostRuntime, program: &[u8], i: usize, issues: &mut [u16; 255]) -> bool {
    if is_arg(rt, i, b"none") {
        return true;
    }
    let mut path = io::buffer();
    let n = argument(rt, i, &mut path).count;
    read_file(rt, program, &path[..n], issues)
}
