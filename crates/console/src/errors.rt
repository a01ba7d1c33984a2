// What the system says of a call that failed, in its own words.
ghost use Rattle.std.specs.Prelude.{◌≤◌};
ghost use Rattle.io.specs.Counts.{IsPrefixLen};

use crate::put::{put_bytes, put_number};
use crate::refusals::put_line;
use std::io::Error;

// The system's numbers of some errors: a bad descriptor; an invalid argument; an input that cannot be rewound; a name that is too long; one that is
// not text.
const BAD_DESCRIPTOR: i32 = 9;

const INVALID: i32 = 22;

const NO_SEEK: i32 = 29;

const TOO_LONG: i32 = 36;

const NOT_TEXT: i32 = 84;

// An argument that there is not.
pub(crate) fn no_argument() -> Error {
    Error::from_raw_os_error(INVALID)
}

// An argument that is longer than its room.
pub(crate) fn too_long() -> Error {
    Error::from_raw_os_error(TOO_LONG)
}

// A file name that is not text.
pub(crate) fn not_text() -> Error {
    Error::from_raw_os_error(NOT_TEXT)
}

// An input that cannot be rewound.
pub(crate) fn no_seek() -> Error {
    Error::from_raw_os_error(NO_SEEK)
}

// The system's number of an error, where it has one from 0 to 255.
fn number_of(e: Error) -> Option<u8> {
    u8::try_from(e.raw_os_error()?).ok()
}

// Whether an error is that of a descriptor that is not open.
pub(crate) fn is_closed(e: Error) -> bool {
    e.raw_os_error() == Some(BAD_DESCRIPTOR)
}

// The system's words for the errors 1 to 40.
fn put_common(room: &mut [u8], at: usize, number: u8) -> usize
    ensures { IsPrefixLen result room.new }
{
    put_line(
        room,
        at,
        b"Operation not permitted\n\
        No such file or directory\n\
        No such process\n\
        Interrupted system call\n\
        Input/output error\n\
        No such device or address\n\
        Argument list too long\n\
        Exec format error\n\
        Bad file descriptor\n\
        No child processes\n\
        Resource temporarily unavailable\n\
        Cannot allocate memory\n\
        Permission denied\n\
        Bad address\n\
        Block device required\n\
        Device or resource busy\n\
        File exists\n\
        Invalid cross-device link\n\
        No such device\n\
        Not a directory\n\
        Is a directory\n\
        Invalid argument\n\
        Too many open files in system\n\
        Too many open files\n\
        Inappropriate ioctl for device\n\
        Text file busy\n\
        File too large\n\
        No space left on device\n\
        Illegal seek\n\
        Read-only file system\n\
        Too many links\n\
        Broken pipe\n\
        Numerical argument out of domain\n\
        Numerical result out of range\n\
        Resource deadlock avoided\n\
        File name too long\n\
        No locks available\n\
        Function not implemented\n\
        Directory not empty\n\
        Too many levels of symbolic links\n",
        number,
    )
}

// An error that has no words here, by its number.
fn put_unknown(room: &mut [u8], at: usize, number: u8) -> usize
    ensures { IsPrefixLen result room.new }
{
    let n = put_bytes(room, at, b"Unknown error ");
    put_number(room, n, u64::from(number))
}

// What the system says of an error.
pub fn put_error(room: &mut [u8], at: usize, e: Error) -> usize
    ensures { IsPrefixLen result room.new }
{
    let number = number_of(e).unwrap_or(0);
    match number {
        1..=40 => put_common(room, at, number),
        75 => put_bytes(room, at, b"Value too large for defined data type"),
        84 => put_bytes(
            room,
            at,
            b"Invalid or incomplete multibyte or wide character",
        ),
        110 => put_bytes(room, at, b"Connection timed out"),
        116 => put_bytes(room, at, b"Stale file handle"),
        122 => put_bytes(room, at, b"Disk quota exceeded"),
        _ => put_unknown(room, at, number),
    }
}
