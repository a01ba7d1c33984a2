// Turns of a program over its input, and what is wrong with a line. Lines that become something else are passed over twice: the first pass looks for
// faults and writes nothing, the second writes. Input that cannot be rewound has the second alone, and a fault then says how much was written.
ghost use Rattle.std.specs.Prelude.{◌≡◌, ◌+◌, ◌≤◌};
ghost use Rattle.io.specs.Counts.{IsPrefixLen};
ghost use Rattle.console.specs.declared.turns.Turn.TheVariants.{Wrong};

use crate::input::{Input, seek};
use crate::put::{cursor_in, put_byte, put_bytes, put_number, put_where};
use crate::say::{complain, put_cause, say_errno, say_where};
use std::io::{Error, SeekFrom};

// How a turn ended: there was nothing to write; something was written, or would be; the input has ended; something was wrong, and was said.
#[derive(Clone, Copy, PartialEq, Eq)]
pub enum Turn {
    Nothing,
    Written,
    Ended,
    Wrong,
}

impl Turn {
    // Whether another turn comes after it.
    pub fn goes_on(self) -> bool {
        matches!(self, Turn::Nothing | Turn::Written)
    }

    // How much was written after it.
    pub fn counted(self, written: u64) -> u64
        ensures { (written ≤ result) × (result ≤ written + 1) }
    {
        if self == Turn::Written {
            written.saturating_add(1)
        } else {
            written
        }
    }

    // The program's status, where it was the last.
    pub fn status(self) -> u8
        ensures { result ≤ 1 }
    {
        if self == Turn::Wrong { 1 } else { 0 }
    }
}

// Whether this pass writes, the number of the line, and how much was written before it.
#[derive(Clone, Copy)]
pub struct Pass {
    pub writes: bool,
    pub number: u64,
    pub written: u64,
}

// Whether an input can be passed over twice.
pub fn rewinds(input: &mut Input) -> bool {
    seek(input, SeekFrom::Current(0)).is_none()
}

// The second pass over an input begins: true, or the system's word is said.
pub fn rewound(rt: &HostRuntime, program: &[u8], file: &[u8], input: &mut Input) -> bool {
    match seek(input, SeekFrom::Start(0)) {
        None => true,
        Some(e) => {
            say_errno(rt, program, file, e);
            false
        }
    }
}

// The plural of a thing, but for one of it.
fn put_things(room: &mut [u8], at: usize, thing: &[u8], count: u64) -> usize
    ensures { IsPrefixLen result room.new }
{
    let a = put_number(room, at, count);
    let b = put_byte(room, a, b' ');
    let c = put_bytes(room, b, thing);
    if count == 1 {
        return c;
    }
    put_byte(room, c, b's')
}

// How many things were written, in a pass that writes.
fn put_written(room: &mut [u8], at: usize, thing: &[u8], p: Pass) -> usize
    ensures { IsPrefixLen result room.new }
{
    if !p.writes {
        return cursor_in(room, at);
    }
    let a = put_bytes(room, at, b"; ");
    let b = put_things(room, a, thing, p.written);
    put_bytes(room, b, b" written")
}

// What is wrong with a line; the answer is that something was.
pub fn say_line(
    rt: &HostRuntime,
    program: &[u8],
    file: &[u8],
    thing: &[u8],
    p: Pass,
    what: &[u8],
) -> Turn
    ensures { result ≡ Wrong }
{
    let mut room = io::buffer();
    let a = put_bytes(&mut room, 0, what);
    let n = put_written(&mut room, a, thing, p);
    say_where(rt, program, file, b"line", p.number, &room[..n]);
    Turn::Wrong
}

// What the system says where a line cannot be read; the answer is that something was wrong.
pub fn say_unread(
    rt: &HostRuntime,
    program: &[u8],
    file: &[u8],
    thing: &[u8],
    p: Pass,
    e: Error,
) -> Turn
    ensures { result ≡ Wrong }
{
    let mut room = io::large_buffer();
    let a = put_where(&mut room, program, file, b"line", p.number);
    let b = put_written(&mut room, a, thing, p);
    let n = put_cause(&mut room, b, e);
    complain(rt, &room[..n]);
    Turn::Wrong
}
