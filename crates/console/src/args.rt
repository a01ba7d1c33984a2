// How a program begins and ends: its own arguments, and the status that it hands to whoever started it.
ghost use Rattle.std.specs.Prelude.{◌-◌, ◌≤◌};
ghost use Rattle.io.specs.Counts.{IsPrefixLen};

use crate::errors::{no_argument, too_long};
use crate::input::Piece;
use crate::put::cursor_in;
use crate::words::number_of;
use std::env::{Env, FillError};

// The program's own arguments have the numbers from first up to count; status_on is the descriptor that takes its status, where there is one.
#[derive(Clone, Copy)]
pub struct Args {
    pub first: usize,
    pub count: usize,
    pub status_on: Option<i32>,
}

// Argument i is put at the start of the room; argument 0 is the program's name. Of one that is missing or longer than the room nothing is
// there, and the error says which.
pub fn argument(rt: &HostRuntime, i: usize, room: &mut [u8]) -> Piece
    ensures { IsPrefixLen result.count room.new }
{
    let (n, error) = match rt.arg(i, room) {
        Ok(n) => (n, None),
        Err(FillError::NotPresent) => (0, Some(no_argument())),
        Err(FillError::TooLong) => (0, Some(too_long())),
    };
    Piece {
        count: cursor_in(room, n),
        error,
    }
}

// Whether there is an argument i.
fn is_there(rt: &HostRuntime, i: usize) -> bool {
    let mut room = [0u8; 1];
    !matches!(rt.arg(i, &mut room), Err(FillError::NotPresent))
}

// How many arguments there are, with the program's name.
fn argument_count(rt: &HostRuntime) -> usize {
    for i in 0..usize::MAX {
        if !is_there(rt, i) {
            return i;
        }
    }
    usize::MAX
}

// Whether the first argument is --status-on.
fn is_told(rt: &HostRuntime) -> bool {
    let mut room = [0u8; 16];
    let n = argument(rt, 1, &mut room).count;
    &room[..n] == b"--status-on".as_slice()
}

// The descriptor that the second argument says, 3 to 999.
fn told(rt: &HostRuntime) -> Option<i32> {
    let mut room = [0u8; 16];
    let n = argument(rt, 2, &mut room).count;
    match number_of(&room[..n])? {
        v @ 3..=999 => Some(v as i32),
        _ => None,
    }
}

// The descriptor of --status-on N; none where the program was started without, or with an N that is not 3 to 999.
fn status_on(rt: &HostRuntime) -> Option<i32> {
    if is_told(rt) { told(rt) } else { None }
}

// The arguments that the program was started with. A --status-on without a number of 3 to 999 stays an argument of its own.
pub fn begin(rt: &HostRuntime) -> Args
    ensures { result.first ≤ 3 }
{
    let count = argument_count(rt);
    let status_on = status_on(rt);
    Args {
        first: if status_on.is_some() { 3 } else { 1 },
        count,
        status_on,
    }
}

// How many arguments of its own the program has.
pub fn own_count(a: Args) -> usize
    ensures { result ≤ a.count - a.first }
{
    a.count.saturating_sub(a.first)
}

// The program's own argument i, from 0, is put at the start of the room, as argument does.
pub fn own(rt: &HostRuntime, a: Args, i: usize, room: &mut [u8]) -> Piece
    ensures { IsPrefixLen result.count room.new }
{
    if i < own_count(a) {
        return argument(rt, a.first + i, room);
    }
    argument(rt, usize::MAX, room)
}

// Whether the program's own argument i, from 0, is a word.
pub fn own_is(rt: &HostRuntime, a: Args, i: usize, word: &[u8]) -> bool {
    let mut room = [0u8; 64];
    let n = own(rt, a, i, &mut room).count;
    &room[..n] == word
}

// The program ends: where a descriptor was told, it gets one byte, the digit of the status.
pub fn end(a: Args, status: u8) {
    let Some(on) = a.status_on else {
        return;
    };
    io::write_all(on, &[b'0' + status % 10]);
}
