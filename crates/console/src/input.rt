// Input: standard input or a file, read in pieces into a lent room.
ghost use Rattle.std.specs.Prelude.{◌≡◌, ◌≤◌, length};
ghost use Rattle.std.specs.Io.{ReadsAtMost};
ghost use Rattle.io.specs.Counts.{IsPrefixLen};

use crate::errors::{is_closed, no_seek, not_text};
use std::fs::File;
use std::io::{Error, Read, Seek, SeekFrom, Stdin};

// An open input. A file is closed where it is dropped.
#[derive(Drop)]
pub enum Input {
    Standard(Stdin),
    Opened(File),
}

// How many bytes came, and why a read failed, where one did.
#[derive(Clone, Copy)]
pub struct Piece {
    pub count: usize,
    pub error: Option<Error>,
}

// Standard input.
pub fn standard(rt: &HostRuntime) -> Input {
    Input::Standard(rt.stdin())
}

// The file of a name, opened for reading. A name is text, UTF-8.
pub fn open(rt: &HostRuntime, name: &[u8]) -> Result<Input, Error> {
    let Ok(path) = str::from_utf8(name) else {
        return Err(not_text());
    };
    Ok(Input::Opened(File::open(rt, path)?))
}

// Whether it is standard input.
pub fn is_standard(input: &Input) -> bool {
    matches!(input, Input::Standard(_))
}

// Why standard input cannot be read, where it is not open.
pub fn closed(rt: &HostRuntime) -> Option<Error> {
    let mut none = [0u8; 0];
    rt.stdin().read(&mut none).err().filter(|&e| is_closed(e))
}

// The input goes to a position; where it cannot, the error says why.
pub(crate) fn seek(input: &mut Input, to: SeekFrom) -> Option<Error> {
    match input {
        Input::Standard(_) => Some(no_seek()),
        Input::Opened(file) => file.seek(to).err(),
    }
}

// One read into a room, however many bytes come.
fn read(input: &mut Input, room: &mut [u8]) -> Result<usize, Error>
    ensures { ReadsAtMost result room.new }
{
    match input {
        Input::Standard(stdin) => stdin.read(room),
        Input::Opened(file) => file.read(room),
    }
}

// One read into the room from a position on; the count is that of the bytes before the new end.
fn read_after(input: &mut Input, room: &mut [u8], from: usize) -> Piece
    requires { from ≤ length room.old }
    ensures { IsPrefixLen result.count room.new }
{
    match read(input, &mut room[from..]) {
        Ok(more) => Piece {
            count: from + more,
            error: None,
        },
        Err(e) => Piece {
            count: from,
            error: Some(e),
        },
    }
}

// One read into the room from a position on, or from its end where the position lies past that; nothing comes into a full room.
pub fn read_on(input: &mut Input, room: &mut [u8], from: usize) -> Piece
    ensures { IsPrefixLen result.count room.new }
{
    if from < room.len() {
        return read_after(input, room, from);
    }
    Piece {
        count: room.len(),
        error: None,
    }
}

// The room is filled until it is full, the input ends or a read fails.
pub fn fill(input: &mut Input, room: &mut [u8]) -> Piece
    ensures { IsPrefixLen result.count room.new }
{
    let mut done = 0;
    while done < room.len() {
        let p = read_on(input, room, done);
        if p.error.is_some() || p.count <= done {
            return p;
        }
        done = p.count;
    }
    Piece {
        count: done,
        error: None,
    }
}
