// Lines of an input, one by one, in a lent room.
ghost use Rattle.std.specs.Prelude.{◌≡◌, ◌≤◌, ◌<◌, length, IfSome};
ghost use Rattle.console.specs.Lines.{Inside};

use crate::input::{Input, read_on};
use std::io::Error;

// A line stands in the room; the input has ended; a line is longer than 65536 bytes, or than the room; a read failed.
#[derive(Clone, Copy)]
pub enum Step {
    Line,
    End,
    Long,
    Failed(Error),
}

// The line is room[start..end], without its line end (LF, or CR LF); what was read after it is room[next..to]. Lines are counted from 1. A line
// that is too long has no text here; next is 0 where its end was not read yet.
#[derive(Clone, Copy)]
pub struct Lines {
    pub step: Step,
    pub start: usize,
    pub end: usize,
    pub next: usize,
    pub to: usize,
    pub number: u64,
}

// A step with no line.
fn without(step: Step) -> Lines
    ensures { (result.start ≤ result.end) × (result.end ≤ 0) }
{
    Lines {
        step,
        start: 0,
        end: 0,
        next: 0,
        to: 0,
        number: 0,
    }
}

// Before the first line.
pub fn begin() -> Lines
    ensures { (result.start ≤ result.end) × (result.end ≤ 0) }
{
    without(Step::Line)
}

// The position of the first line end between two positions.
fn line_end(room: &[u8], from: usize, to: usize) -> Option<usize>
    requires { (from ≤ to) × (to ≤ length room.now) }
    ensures { IfSome result (λ e. (from ≤ e) × (e < to)) }
{
    let i = room[from..to].iter().position(|&b| b == b'\n')?;
    Some(from + i)
}

// What stands between two positions is moved to the room's start; the answer is its length.
fn moved(room: &mut [u8], from: usize, to: usize) -> usize
    requires { (from ≤ to) × (to ≤ length room.old) }
    ensures { result ≤ length room.new }
{
    room.copy_within(from..to, 0);
    to - from
}

// The input ended after so many bytes of a line: they are its last line, if there are any.
fn last_line(have: usize) -> Lines
    ensures { (result.start ≤ result.end) × (result.end ≤ have) }
{
    if have == 0 {
        return without(Step::End);
    }
    Lines {
        step: Step::Line,
        start: 0,
        end: have,
        next: have,
        to: have,
        number: 0,
    }
}

// A line found in the room.
fn found(start: usize, end: usize, to: usize) -> Lines
    requires { (start ≤ end) × (end < to) }
    ensures { (result.start ≤ result.end) × (result.end ≤ to) }
{
    Lines {
        step: Step::Line,
        start,
        end,
        next: end + 1,
        to,
        number: 0,
    }
}

// The line of which the first bytes stand at the room's start is read to its end.
fn read_line(input: &mut Input, room: &mut [u8], first: usize) -> Lines
    ensures { Inside result room.new }
{
    let mut have = first;
    while have < room.len() {
        let p = read_on(input, room, have);
        if let Some(e) = p.error {
            return without(Step::Failed(e));
        }
        let to = p.count;
        if to <= have {
            return last_line(have);
        }
        if let Some(end) = line_end(room, have, to) {
            return found(0, end, to);
        }
        have = to;
    }
    without(Step::Long)
}

// The end of a line before the carriage return that it may end with.
fn before_return(room: &[u8], start: usize, end: usize) -> usize
    requires { (start ≤ end) × (end ≤ length room.now) }
    ensures { (start ≤ result) × (result ≤ end) }
{
    if start < end && room[end - 1] == b'\r' {
        end - 1
    } else {
        end
    }
}

// A line with its number, and without the carriage return that it may end with; none where it is then longer than 65536 bytes.
fn numbered(room: &[u8], l: Lines, number: u64) -> Lines
    requires { Inside l room.now }
    ensures { Inside result room.now }
{
    let start = l.start;
    let end = before_return(room, start, l.end);
    if end - start > 65536 {
        return Lines {
            step: Step::Long,
            start: 0,
            end: 0,
            number,
            ..l
        };
    }
    Lines { end, number, ..l }
}

// The next line, without its number.
fn line_after(input: &mut Input, room: &mut [u8], l: Lines) -> Lines
    ensures { Inside result room.new }
{
    let to = l.to.min(room.len());
    let next = l.next.min(to);
    if let Some(end) = line_end(room, next, to) {
        return found(next, end, to);
    }
    let have = moved(room, next, to);
    read_line(input, room, have)
}

// The next line, where the one before it stands as l says.
pub fn next_line(input: &mut Input, room: &mut [u8], l: Lines) -> Lines
    ensures { Inside result room.new }
{
    let next = line_after(input, room, l);
    numbered(room, next, l.number.saturating_add(1))
}

// One read behind a line that is longer than the room: what stands behind its end, or that it has not ended yet.
fn read_past(input: &mut Input, room: &mut [u8], number: u64) -> Lines {
    let p = read_on(input, room, 0);
    let to = p.count;
    let l = match (p.error, line_end(room, 0, to)) {
        (Some(e), _) => without(Step::Failed(e)),
        (None, Some(end)) => found(0, end, to),
        (None, None) => without(if to == 0 { Step::End } else { Step::Long }),
    };
    Lines {
        start: 0,
        end: 0,
        number,
        ..l
    }
}

// Whether the end of a line that is too long is still to come.
fn is_unended(l: Lines) -> bool {
    matches!(l.step, Step::Long) && l.next == 0
}

// After a line that is too long: its rest is passed over, so that the line behind it can come next. After any other nothing is to do.
pub fn past_long(input: &mut Input, room: &mut [u8], l: Lines) -> Lines {
    let mut r = l;
    for _ in 0..u64::MAX {
        if !is_unended(r) {
            break;
        }
        r = read_past(input, room, l.number);
    }
    r
}

// Room for the longest line, 65536 bytes, and its line end.
pub fn line_room() -> [u8; 65540]
    ensures { 65540 ≡ length result }
{
    [0; 65540]
}
