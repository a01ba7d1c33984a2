// Lines of a file, a subframe for each: frame 1 sow 345600 data, and the information bits in hexadecimal.
ghost use Rattle.console.specs.Lines.{Inside};

use crate::faults;
use crate::fields::{data_of, frame_of, second_of};
use console::input::Input;
use console::lines::{Lines, Step, next_line};
use console::turns::{Pass, Turn};
use console::words::{next_word, number_of};

// The first word of a line that is not as expected, by its number, and the position before it.
#[derive(Clone, Copy)]
struct Fault {
    word: u8,
    at: usize,
}

// A line that was read.
#[derive(Clone, Copy)]
struct Line {
    frame: u32,
    second: u32,
    data: [u8; 28],
}

// A word that must be a text; the position after it.
fn text(s: &[u8], at: usize, word: u8, t: &[u8]) -> Result<usize, Fault> {
    let w = next_word(s, at);
    let from = w.from;
    let to = w.to;
    if &s[from..to] == t {
        Ok(to)
    } else {
        Err(Fault { word, at })
    }
}

// A word that must be a number, and the position after it.
fn number(s: &[u8], at: usize, word: u8) -> Result<(u32, usize), Fault> {
    let w = next_word(s, at);
    let from = w.from;
    let to = w.to;
    let value = number_of(&s[from..to]).ok_or(Fault { word, at })?;
    Ok((value, to))
}

// A word that must be data, and the position after it.
fn data_word(s: &[u8], at: usize, word: u8) -> Result<([u8; 28], usize), Fault> {
    let w = next_word(s, at);
    let from = w.from;
    let to = w.to;
    let data = data_of(&s[from..to]).ok_or(Fault { word, at })?;
    Ok((data, to))
}

// The line of a subframe.
fn read_line(s: &[u8]) -> Result<Line, Fault> {
    let at = text(s, 0, 1, b"frame")?;
    let (frame, at) = number(s, at, 2)?;
    let at = text(s, at, 3, b"sow")?;
    let (second, at) = number(s, at, 4)?;
    let at = text(s, at, 5, b"data")?;
    let (data, at) = data_word(s, at, 6)?;
    text(s, at, 7, b"")?;
    Ok(Line {
        frame,
        second,
        data,
    })
}

// A subframe goes to standard output, in a pass that writes.
fn write_subframe(rt: &HostRuntime, p: Pass, s: &[u8]) -> Turn {
    if !p.writes || console::out::write(rt, b"d1", s) {
        Turn::Written
    } else {
        Turn::Wrong
    }
}

// Information bits are written as a subframe, or refused.
fn write_data(rt: &HostRuntime, name: &[u8], p: Pass, d: &[u8]) -> Turn {
    let mut room = [0u8; 38];
    let refusal = verdict::number_of(d1_subframes::write_subframe(&mut room, d));
    if refusal != 0 {
        return faults::say_refused(rt, name, p, refusal);
    }
    write_subframe(rt, p, &room)
}

// A line that is well formed: its numbers must be those in its data.
fn write_line(rt: &HostRuntime, name: &[u8], p: Pass, l: Line) -> Turn {
    let d = l.data;
    let frame = u32::from(frame_of(&d));
    let second = second_of(&d);
    if frame != l.frame {
        return faults::say_differs(rt, name, p, 2, frame);
    }
    if second != l.second {
        return faults::say_differs(rt, name, p, 4, second);
    }
    write_data(rt, name, p, &d)
}

// A line is malformed.
fn say_malformed(rt: &HostRuntime, name: &[u8], p: Pass, s: &[u8], fault: Fault) -> Turn {
    let w = next_word(s, fault.at);
    let from = w.from;
    let to = w.to;
    faults::say_malformed(rt, name, p, fault.word, &s[from..to])
}

// A line without a byte order mark.
fn take_text(rt: &HostRuntime, name: &[u8], p: Pass, s: &[u8]) -> Turn {
    if console::words::is_remark(s) {
        return Turn::Nothing;
    }
    match read_line(s) {
        Ok(l) => write_line(rt, name, p, l),
        Err(fault) => say_malformed(rt, name, p, s, fault),
    }
}

// A line.
fn take_line(rt: &HostRuntime, name: &[u8], p: Pass, s: &[u8]) -> Turn {
    let a = console::words::text_start(s, p.number);
    take_text(rt, name, p, &s[a..])
}

// A step of the reading.
fn turn(rt: &HostRuntime, name: &[u8], room: &[u8], l: Lines, p: Pass) -> Turn
    requires { Inside l room.now }
{
    let a = l.start;
    let b = l.end;
    match l.step {
        Step::End => Turn::Ended,
        Step::Failed(e) => faults::say_unread(rt, name, p, e),
        Step::Long => faults::say_line(rt, name, p, b"longer than 65536 bytes"),
        Step::Line => take_line(rt, name, p, &room[a..b]),
    }
}

// All lines of an input, in a lent room, in a pass that writes or that only looks for faults.
fn all_lines(
    rt: &HostRuntime,
    input: &mut Input,
    name: &[u8],
    room: &mut [u8],
    writes: bool,
) -> Turn {
    let mut l = console::lines::begin();
    let mut last = Turn::Nothing;
    let mut written: u64 = 0;
    for _ in 0..u64::MAX {
        l = next_line(input, room, l);
        let p = Pass {
            writes,
            number: l.number,
            written,
        };
        last = turn(rt, name, room, l, p);
        if !last.goes_on() {
            break;
        }
        written = last.counted(written);
    }
    last
}

// All lines of a file, twice: nothing is written where one is faulty.
fn twice(rt: &HostRuntime, input: &mut Input, name: &[u8], room: &mut [u8]) -> Turn {
    if all_lines(rt, input, name, room, false) == Turn::Wrong {
        return Turn::Wrong;
    }
    if !console::turns::rewound(rt, b"d1", name, input) {
        return Turn::Wrong;
    }
    all_lines(rt, input, name, room, true)
}

// All lines of an input: a file is passed over twice, what cannot be rewound once.
pub(crate) fn write_subframes(
    rt: &HostRuntime,
    input: &mut Input,
    name: &[u8],
    once: bool,
) -> Turn {
    let mut room = console::lines::line_room();
    if once {
        return all_lines(rt, input, name, &mut room, true);
    }
    twice(rt, input, name, &mut room)
}
