// d1 [-w] FILE: one line for each D1 or D2 subframe of 38 bytes; with -w the subframe of each such line, on standard output.
#![tactic(auto)]

mod faults;
mod fields;
mod reading;
mod writing;

use console::args::{Args, own, own_count, own_is};
use console::input::{Input, open, standard};
use console::turns::rewinds;

// All of an input: lines to subframes, or subframes to lines. The status.
fn pass_all(rt: &HostRuntime, input: &mut Input, name: &[u8], lines: bool, once: bool) -> u8 {
    let last = if lines {
        writing::write_subframes(rt, input, name, once)
    } else {
        reading::show_subframes(rt, input, name)
    };
    last.status()
}

// The file of a name; - is standard input.
fn pass_file(rt: &HostRuntime, name: &[u8], lines: bool) -> u8 {
    if name == b"-".as_slice() {
        return pass_all(rt, &mut standard(rt), b"standard input", lines, true);
    }
    match open(rt, name) {
        Ok(mut input) => {
            let once = !rewinds(&mut input);
            pass_all(rt, &mut input, name, lines, once)
        }
        Err(e) => {
            console::say::say_errno(rt, b"d1", name, e);
            1
        }
    }
}

// How the program is called.
fn usage(rt: &HostRuntime) -> u8 {
    console::say::complain(rt, b"usage: d1 [-w] FILE\n");
    2
}

// The file of the program's own argument i.
fn pass_arg(rt: &HostRuntime, a: Args, i: usize, lines: bool) -> u8 {
    let mut path = io::buffer();
    let p = own(rt, a, i, &mut path);
    if let Some(e) = p.error {
        console::say::say_errno(rt, b"d1", b"argument", e);
        return 1;
    }
    let n = p.count;
    if console::words::is_option(&path[..n]) {
        return usage(rt);
    }
    pass_file(rt, &path[..n], lines)
}

// The program by its arguments; the status.
fn run(rt: &HostRuntime, a: Args) -> u8 {
    let count = own_count(a);
    if count == 1 {
        return pass_arg(rt, a, 0, false);
    }
    if count == 2 && own_is(rt, a, 0, b"-w") {
        return pass_arg(rt, a, 1, true);
    }
    usage(rt)
}

fn main(rt: HostRuntime) {
    let a = console::args::begin(&rt);
    let status = run(&rt, a);
    console::args::end(a, status);
}
