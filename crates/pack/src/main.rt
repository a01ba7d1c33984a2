// pack [-f] FILE: the messages of lines as show writes them, on standard output; with -f the frames of lines as show -f writes them.
//
// A message is 61 bytes. A line of show -f begins with the PRN, prn 60 type 1 .., and its frame of 125 bytes has all flags 0; a line refused 7 is
// faulty. Blank lines and lines that begin with # are passed over. - is standard input.
//
// All of a file is written or nothing. What cannot be read twice is written as it is read, up to the first faulty line.
#![tactic(auto)]

mod faults;
mod fields;
mod lines;
mod lists;
mod packing;
mod parts;
mod reader;

ghost use Rattle.console.specs.Lines.{Inside};

use console::args::{Args, own, own_count, own_is};
use console::input::{Input, open, standard};
use console::lines::{Lines, Step, next_line};
use console::turns::{Pass, Turn, rewinds};

// A step of the reading.
fn turn(rt: &HostRuntime, name: &[u8], room: &[u8], l: Lines, p: Pass, frames: bool) -> Turn
    requires { Inside l room.now }
{
    let a = l.start;
    let b = l.end;
    match l.step {
        Step::End => Turn::Ended,
        Step::Failed(e) => faults::say_unread(rt, name, p, frames, e),
        Step::Long => faults::say_line(rt, name, p, frames, b"longer than 65536 bytes"),
        Step::Line => packing::pack_line(rt, name, p, frames, &room[a..b]),
    }
}

// All lines of an input, in a pass that writes or that only looks for faults.
fn pack_all(
    rt: &HostRuntime,
    input: &mut Input,
    name: &[u8],
    room: &mut [u8],
    frames: bool,
    writes: bool,
) -> Turn {
    let mut l = console::lines::begin();
    let mut last = Turn::Nothing;
    let mut written: u64 = 0;
    for _ in 0..u64::MAX {
        l = next_line(input, room, l);
        let p = Pass {
            writes,
            number: l.number,
            written,
        };
        last = turn(rt, name, room, l, p, frames);
        if !last.goes_on() {
            break;
        }
        written = last.counted(written);
    }
    last
}

// All lines of a file, twice: nothing is written where one is faulty.
fn pack_twice(
    rt: &HostRuntime,
    input: &mut Input,
    name: &[u8],
    room: &mut [u8],
    frames: bool,
) -> Turn {
    if pack_all(rt, input, name, room, frames, false) == Turn::Wrong {
        return Turn::Wrong;
    }
    if !console::turns::rewound(rt, b"pack", name, input) {
        return Turn::Wrong;
    }
    pack_all(rt, input, name, room, frames, true)
}

// An input: a file is passed over twice, what cannot be rewound once.
fn pack_input(rt: &HostRuntime, input: &mut Input, name: &[u8], frames: bool, once: bool) -> u8 {
    let mut room = console::lines::line_room();
    let last = if once {
        pack_all(rt, input, name, &mut room, frames, true)
    } else {
        pack_twice(rt, input, name, &mut room, frames)
    };
    last.status()
}

// The file of a name; - is standard input.
fn pack_file(rt: &HostRuntime, name: &[u8], frames: bool) -> u8 {
    if name == b"-".as_slice() {
        return pack_input(rt, &mut standard(rt), b"standard input", frames, true);
    }
    match open(rt, name) {
        Ok(mut input) => {
            let once = !rewinds(&mut input);
            pack_input(rt, &mut input, name, frames, once)
        }
        Err(e) => {
            console::say::say_errno(rt, b"pack", name, e);
            1
        }
    }
}

// How the program is called.
fn usage(rt: &HostRuntime) -> u8 {
    console::say::complain(rt, b"usage: pack [-f] FILE\n");
    2
}

// The file of the program's own argument i.
fn pack_arg(rt: &HostRuntime, a: Args, i: usize, frames: bool) -> u8 {
    let mut path = io::buffer();
    let p = own(rt, a, i, &mut path);
    if let Some(e) = p.error {
        console::say::say_errno(rt, b"pack", b"argument", e);
        return 1;
    }
    let n = p.count;
    if console::words::is_option(&path[..n]) {
        return usage(rt);
    }
    pack_file(rt, &path[..n], frames)
}

// The program by its arguments; the status.
fn run(rt: &HostRuntime, a: Args) -> u8 {
    let count = own_count(a);
    if count == 1 {
        return pack_arg(rt, a, 0, false);
    }
    if count == 2 && own_is(rt, a, 0, b"-f") {
        return pack_arg(rt, a, 1, true);
    }
    usage(rt)
}

fn main(rt: HostRuntime) {
    let a = console::args::begin(&rt);
    let status = run(&rt, a);
    console::args::end(a, status);
}
