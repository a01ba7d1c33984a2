// Mixed logs: text, a record to a line. Frames go through the table, subframes 2 of B-CNAV1 into the broadcast list, and D1 subframes are read.
ghost use Rattle.console.specs.Lines.{Inside};

use crate::frames::{How, count_frame};
use crate::heard::{Failed, Heard};
use console::args::argument;
use console::input::Input;
use console::lines::{Lines, Step, next_line, past_long};
use console::put::{put_bytes, put_text};
use inputs::files::open_named;
use inputs::hex::bytes_into;
use inputs::record_lines::{Kind, record_of};
use verdict::number_of;

// A frame goes to the ledger of its PRN.
fn take_frame(
    rt: &HostRuntime,
    program: &[u8],
    frame: &[u8],
    how: How,
    heard: &mut Heard,
) -> Result<(), Failed> {
    let v = table::take(&mut heard.table, frame);
    count_frame(rt, program, frame, v, how, heard)
}

// A subframe 2 heard from a BeiDou satellite is joined into the broadcast list, or refused.
fn hear(prn: u8, s: &[u8], heard: &mut Heard) {
    let refusal = inputs::heard::hear(&mut heard.issues, prn, s);
    heard.cnav1.add(refusal);
}

// A D1 subframe is read, or refused.
fn read_d1(s: &[u8], heard: &mut Heard) {
    let mut d = [0u8; 28];
    let refusal = number_of(d1_subframes::read_subframe(&mut d, s));
    heard.d1.add(refusal);
}

// A line on standard error for the first bad line of all; a bad line costs itself alone.
fn take_bad(rt: &HostRuntime, name: &[u8], number: u64, quiet: bool, heard: &mut Heard) {
    if !quiet && heard.bad == 0 {
        let mut room = io::large_buffer();
        let a = put_bytes(&mut room, 0, b"... ");
        let b = put_bytes(&mut room, a, name);
        let n = put_text(&mut room, b, b": line #: not a record\n", &[number]);
        console::say::complain(rt, &room[..n]);
    }
    heard.bad = heard.bad.saturating_add(1);
}

// The digits of a record of a kind.
fn take_digits(
    rt: &HostRuntime,
    program: &[u8],
    kind: Kind,
    digits: &[u8],
    how: How,
    heard: &mut Heard,
) -> Result<(), Failed> {
    let mut bytes = [0u8; 32768];
    let n = bytes_into(digits, &mut bytes);
    match kind {
        Kind::Frame => take_frame(rt, program, &bytes[..n], how, heard)?,
        Kind::Cnav1(prn) => hear(prn, &bytes[..n], heard),
        Kind::D1(_) => read_d1(&bytes[..n], heard),
        Kind::Nothing | Kind::Wrong(_) => {}
    }
    Ok(())
}

// A line. The kind is looked at first, since room for the bytes of a record is cleared: a bad line pays for none.
fn take_line(
    rt: &HostRuntime,
    program: &[u8],
    name: &[u8],
    number: u64,
    s: &[u8],
    how: How,
    heard: &mut Heard,
) -> Result<(), Failed> {
    let r = record_of(s, number);
    if r.kind == Kind::Nothing {
        return Ok(());
    }
    heard.lines = heard.lines.saturating_add(1);
    if matches!(r.kind, Kind::Wrong(_)) {
        take_bad(rt, name, number, how.quiet, heard);
        return Ok(());
    }
    take_digits(rt, program, r.kind, &s[r.from..r.to], how, heard)
}

// A step of the reading.
fn turn(
    rt: &HostRuntime,
    program: &[u8],
    name: &[u8],
    room: &[u8],
    l: Lines,
    how: How,
    heard: &mut Heard,
) -> Result<(), Failed>
    requires { Inside l room.now }
{
    match l.step {
        Step::End => Ok(()),
        Step::Failed(e) => {
            console::say::say_errno(rt, program, name, e);
            Err(Failed)
        }
        Step::Long => {
            heard.lines = heard.lines.saturating_add(1);
            take_bad(rt, name, l.number, how.quiet, heard);
            Ok(())
        }
        Step::Line => take_line(
            rt,
            program,
            name,
            l.number,
            &room[l.start..l.end],
            how,
            heard,
        ),
    }
}

// The next line, also after one that was too long.
fn line_after(input: &mut Input, room: &mut [u8], l: Lines) -> Lines
    ensures { Inside result room.new }
{
    let p = past_long(input, room, l);
    next_line(input, room, p)
}

// All lines of a log.
fn all_lines(
    rt: &HostRuntime,
    program: &[u8],
    input: &mut Input,
    name: &[u8],
    room: &mut [u8],
    how: How,
    heard: &mut Heard,
) -> Result<(), Failed> {
    let mut l = console::lines::begin();
    for _ in 0..u64::MAX {
        l = line_after(input, room, l);
        turn(rt, program, name, room, l, how, heard)?;
        if matches!(l.step, Step::End) {
            break;
        }
    }
    Ok(())
}

// The log of argument i.
fn take_log(
    rt: &HostRuntime,
    program: &[u8],
    i: usize,
    how: How,
    heard: &mut Heard,
) -> Result<(), Failed> {
    let mut path = io::buffer();
    let n = argument(rt, i, &mut path).count;
    let name = &path[..n];
    let Some(mut input) = open_named(rt, program, name) else {
        return Err(Failed);
    };
    let mut room = console::lines::line_room();
    all_lines(rt, program, &mut input, name, &mut room, how, heard)
}

// The logs from argument i on, of count, in order, over a broadcast list. The end of a log ends its last line.
pub(crate) fn take_logs(
    rt: &HostRuntime,
    program: &[u8],
    i: usize,
    count: usize,
    how: How,
    heard: &mut Heard,
) -> Result<(), Failed> {
    for k in i..count {
        take_log(rt, program, k, how, heard)?;
    }
    Ok(())
}
