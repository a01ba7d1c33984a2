// Files by name; - is standard input. Each function is told the program's name, with which what it says begins.
use console::args::argument;
use console::input::{Input, closed, open, standard};
use console::say::say_errno;
use std::fs;
use std::io::Error;

// Opens a file for reading; nothing where it cannot be opened, and it has been said why.
pub fn open_named(rt: &HostRuntime, program: &[u8], name: &[u8]) -> Option<Input> {
    if name == b"-".as_slice() {
        return Some(standard(rt));
    }
    match open(rt, name) {
        Ok(input) => Some(input),
        Err(e) => {
            say_errno(rt, program, name, e);
            None
        }
    }
}

// Whether argument i is a word.
pub fn is_arg(rt: &HostRuntime, i: usize, word: &[u8]) -> bool {
    let mut room = io::buffer();
    let n = argument(rt, i, &mut room).count;
    &room[..n] == word
}

// Whether argument i is an option: a minus sign and more.
pub fn is_option(rt: &HostRuntime, i: usize) -> bool {
    let mut room = io::buffer();
    let n = argument(rt, i, &mut room).count;
    console::words::is_option(&room[..n])
}

// Why what a path names cannot be found or reached, where that is so; and whether it is a file or a folder, which can be opened and closed without
// a trace. A pipe is let be, since whoever writes to it would be cut off.
fn is_lasting(rt: &HostRuntime, path: &str) -> Result<bool, Error> {
    let found = fs::metadata(rt, path)?;
    Ok(found.is_file() || found.is_dir())
}

// Why the file of a path may not be read, where that is so.
fn refused_path(rt: &HostRuntime, path: &str, name: &[u8]) -> Option<Error> {
    match is_lasting(rt, path) {
        Ok(true) => open(rt, name).err(),
        Ok(false) => None,
        Err(e) => Some(e),
    }
}

// Why the file of a name may not be read, where that is so.
fn refused(rt: &HostRuntime, name: &[u8]) -> Option<Error> {
    match str::from_utf8(name) {
        Ok(path) => refused_path(rt, path, name),
        Err(_) => open(rt, name).err(),
    }
}

// Whether standard input is open; where not, it has been said so. It is asked before any file is opened, which would take its number.
fn is_input_open(rt: &HostRuntime, program: &[u8]) -> bool {
    match closed(rt) {
        None => true,
        Some(e) => {
            say_errno(rt, program, b"standard input", e);
            false
        }
    }
}

// Whether the file of a name may be read; where not, it has been said why.
fn may_read(rt: &HostRuntime, program: &[u8], name: &[u8]) -> bool {
    if name == b"-".as_slice() {
        return is_input_open(rt, program);
    }
    match refused(rt, name) {
        None => true,
        Some(e) => {
            say_errno(rt, program, name, e);
            false
        }
    }
}

// Whether the file of argument i may be read; where not, it has been said why.
pub fn is_readable(rt: &HostRuntime, program: &[u8], i: usize) -> bool {
    let mut path = io::buffer();
    let p = argument(rt, i, &mut path);
    if let Some(e) = p.error {
        say_errno(rt, program, b"argument", e);
        return false;
    }
    let n = p.count;
    may_read(rt, program, &path[..n])
}

// Whether each file from argument i on may be read.
pub fn all_readable(rt: &HostRuntime, program: &[u8], i: usize, count: usize) -> bool {
    (i..count).all(|k| is_readable(rt, program, k))
}
