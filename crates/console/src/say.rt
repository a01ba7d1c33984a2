// Complaints on standard error, one line each; the answer is the length of what was put into it here.
ghost use Rattle.std.specs.Prelude.{◌≤◌};
ghost use Rattle.io.specs.Counts.{IsPrefixLen};

use crate::errors::put_error;
use crate::put::{put_byte, put_bytes, put_file, put_found, put_where};
use std::io::Error;

// Bytes go to standard error. Where they cannot, there is nobody to say it to.
pub fn complain(rt: &HostRuntime, s: &[u8]) {
    let _ = rt.stderr().write_all(s);
}

// What is wrong with a file as a whole.
pub fn say_file(rt: &HostRuntime, program: &[u8], file: &[u8], what: &[u8]) -> usize
    ensures { result ≤ 65536 }
{
    let mut room = io::large_buffer();
    let a = put_file(&mut room, program, file);
    let b = put_bytes(&mut room, a, b": ");
    let c = put_bytes(&mut room, b, what);
    let n = put_byte(&mut room, c, 10);
    complain(rt, &room[..n]);
    n
}

// What is wrong at a line or an offset of a file.
pub fn say_where(
    rt: &HostRuntime,
    program: &[u8],
    file: &[u8],
    word: &[u8],
    x: u64,
    what: &[u8],
) -> usize
    ensures { result ≤ 65536 }
{
    let mut room = io::large_buffer();
    let a = put_where(&mut room, program, file, word, x);
    let b = put_bytes(&mut room, a, b": ");
    let c = put_bytes(&mut room, b, what);
    let n = put_byte(&mut room, c, 10);
    complain(rt, &room[..n]);
    n
}

// What was expected at a line of a file, and the word that was found there; an empty word is the end of the line.
pub fn say_found(
    rt: &HostRuntime,
    program: &[u8],
    file: &[u8],
    number: u64,
    what: &[u8],
    word: &[u8],
) -> usize
    ensures { result ≤ 65536 }
{
    let mut room = io::large_buffer();
    let a = put_where(&mut room, program, file, b"line", number);
    let b = put_bytes(&mut room, a, b": ");
    let c = put_bytes(&mut room, b, what);
    let d = put_found(&mut room, c, word);
    let n = put_byte(&mut room, d, 10);
    complain(rt, &room[..n]);
    n
}

// The end of a complaint: what the system says of an error.
pub(crate) fn put_cause(room: &mut [u8], at: usize, e: Error) -> usize
    ensures { IsPrefixLen result room.new }
{
    let a = put_bytes(room, at, b": ");
    let b = put_error(room, a, e);
    put_byte(room, b, 10)
}

// What the system says of a call that failed on a file.
pub fn say_errno(rt: &HostRuntime, program: &[u8], file: &[u8], e: Error) -> usize
    ensures { result ≤ 65536 }
{
    let mut room = io::large_buffer();
    let a = put_file(&mut room, program, file);
    let n = put_cause(&mut room, a, e);
    complain(rt, &room[..n]);
    n
}

// What the system says of a call that failed at a line or an offset of a file.
pub fn say_errno_where(
    rt: &HostRuntime,
    program: &[u8],
    file: &[u8],
    word: &[u8],
    x: u64,
    e: Error,
) -> usize
    ensures { result ≤ 65536 }
{
    let mut room = io::large_buffer();
    let a = put_where(&mut room, program, file, word, x);
    let n = put_cause(&mut room, a, e);
    complain(rt, &room[..n]);
    n
}
