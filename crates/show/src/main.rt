// show [-f] FILE: one line for each message of 61 bytes, or for each frame of 125.
#![tactic(auto)]

mod entry;
mod lines;
mod parts;

use console::args::{Args, own, own_count, own_is};
use console::input::{Input, open, standard};
use console::put::{put_byte, put_detail, put_text};
use console::turns::Turn;
use contents::parts::Contents;
use std::io::Error;
use verdict::{Refusal, number_of};

// A line goes to standard output.
fn write_line(rt: &HostRuntime, line: &[u8]) -> Turn {
    if console::out::write(rt, b"show", line) {
        Turn::Written
    } else {
        Turn::Wrong
    }
}

// The line of a refusal.
fn write_refused(rt: &HostRuntime, r: Refusal) -> Turn {
    let mut room = [0u8; 60];
    let v = Err(r);
    let numbers = [u64::from(number_of(v))];
    let a = put_text(&mut room, 0, b"refused #", &numbers);
    let b = put_detail(&mut room, a, v);
    let k = put_byte(&mut room, b, b'\n');
    write_line(rt, &room[..k])
}

// The line of a message; that of a frame's message begins with its PRN.
fn write_contents(rt: &HostRuntime, text: &[u8], prn: u8, c: &Contents) -> Turn {
    let mut room = io::buffer();
    let numbers = [u64::from(prn)];
    let a = put_text(&mut room, 0, text, &numbers);
    let k = lines::put_contents(&mut room, a, c);
    write_line(rt, &room[..k])
}

// The line of a message's bytes.
fn show_message(rt: &HostRuntime, s: &[u8]) -> Turn {
    match message::read(s) {
        Ok(c) => write_contents(rt, b"", 0, &c),
        Err(r) => write_refused(rt, r),
    }
}

// The line of a frame's bytes.
fn show_frame(rt: &HostRuntime, s: &[u8]) -> Turn {
    match frame::read_frame(s) {
        Ok(c) => write_contents(rt, b"prn # ", frame::prn_of(s), &c),
        Err(r) => write_refused(rt, r),
    }
}

// The file cannot be read at an offset.
fn say_failed(rt: &HostRuntime, name: &[u8], done: u64, e: Error) -> Turn {
    console::say::say_errno_where(rt, b"show", name, b"offset", done, e);
    Turn::Wrong
}

// Whether bytes look like a frame: they begin with its sync, EB90. As a message they would have type 58, which is never valid, so no message is lost.
fn is_framed(s: &[u8]) -> bool {
    s.starts_with(b"\xeb\x90")
}

// The message at an offset; at the file's start there may be frames instead.
fn message_at(rt: &HostRuntime, name: &[u8], done: u64, s: &[u8]) -> Turn {
    if done == 0 && is_framed(s) {
        console::say::say_file(
            rt,
            b"show",
            name,
            b"these look like frames, which begin with EB90; use show -f",
        );
        return Turn::Wrong;
    }
    show_message(rt, s)
}

// The message or the frame at an offset.
fn show_bytes(rt: &HostRuntime, name: &[u8], done: u64, s: &[u8], frames: bool) -> Turn {
    if s.is_empty() {
        return Turn::Ended;
    }
    if frames {
        show_frame(rt, s)
    } else {
        message_at(rt, name, done, s)
    }
}

// How many bytes a message or a frame has.
fn size_of(frames: bool) -> u64 {
    if frames { 125 } else { 61 }
}

// The next message or frame of a file, in a room of its size.
fn turn_in(
    rt: &HostRuntime,
    room: &mut [u8],
    input: &mut Input,
    name: &[u8],
    done: u64,
    frames: bool,
) -> Turn {
    let p = console::input::fill(input, room);
    if let Some(e) = p.error {
        return say_failed(rt, name, done, e);
    }
    let n = p.count;
    show_bytes(rt, name, done, &room[..n], frames)
}

// The next message or frame of a file.
fn turn(rt: &HostRuntime, input: &mut Input, name: &[u8], done: u64, frames: bool) -> Turn {
    if frames {
        let mut frame = [0u8; 125];
        return turn_in(rt, &mut frame, input, name, done, true);
    }
    let mut message = [0u8; 61];
    turn_in(rt, &mut message, input, name, done, false)
}

// All messages or frames of a file, and how the reading ended.
fn show_turns(rt: &HostRuntime, input: &mut Input, name: &[u8], frames: bool) -> Turn {
    let mut done: u64 = 0;
    for _ in 0..100000000000000000u64 {
        let t = turn(rt, input, name, done, frames);
        if !t.goes_on() {
            return t;
        }
        done = done.saturating_add(size_of(frames));
    }
    Turn::Ended
}

// All messages or frames of a file; the status.
fn show_all(rt: &HostRuntime, input: &mut Input, name: &[u8], frames: bool) -> u8 {
    show_turns(rt, input, name, frames).status()
}

// The file of a name; - is standard input.
fn show_file(rt: &HostRuntime, name: &[u8], frames: bool) -> u8 {
    if name == b"-".as_slice() {
        return show_all(rt, &mut standard(rt), b"standard input", frames);
    }
    match open(rt, name) {
        Ok(mut input) => show_all(rt, &mut input, name, frames),
        Err(e) => {
            console::say::say_errno(rt, b"show", name, e);
            1
        }
    }
}

// How the program is called.
fn usage(rt: &HostRuntime) -> u8 {
    console::say::complain(rt, b"usage: show [-f] FILE\n");
    2
}

// The file of the program's own argument i.
fn show_arg(rt: &HostRuntime, a: Args, i: usize, frames: bool) -> u8 {
    let mut path = io::buffer();
    let p = own(rt, a, i, &mut path);
    if let Some(e) = p.error {
        console::say::say_errno(rt, b"show", b"argument", e);
        return 1;
    }
    let n = p.count;
    if console::words::is_option(&path[..n]) {
        return usage(rt);
    }
    show_file(rt, &path[..n], frames)
}

// The program by its arguments; the status.
fn run(rt: &HostRuntime, a: Args) -> u8 {
    let count = own_count(a);
    if count == 1 {
        return show_arg(rt, a, 0, false);
    }
    if count == 2 && own_is(rt, a, 0, b"-f") {
        return show_arg(rt, a, 1, true);
    }
    usage(rt)
}

fn main(rt: HostRuntime) {
    let a = console::args::begin(&rt);
    let status = run(&rt, a);
    console::args::end(a, status);
}
