// cnav1 FILE: one line for each B-CNAV1 subframe 2 of 75 bytes, its fields as raw numbers, or `refused 36`.
// FILE has one subframe after the other, the 600 bits before the coding, high bit first; - is standard input. What is left at its end is one more,
// refused 35. Numbers that 001 marks as two's complement have a minus sign below 0.
#![tactic(auto)]

mod lines;
mod reading;

use console::args::{Args, own, own_count};
use console::input::{open, standard};

// The file of a name; - is standard input. The status.
fn show_file(rt: &HostRuntime, name: &[u8]) -> u8 {
    if name == b"-".as_slice() {
        return reading::show_subframes(rt, &mut standard(rt), b"standard input").status();
    }
    match open(rt, name) {
        Ok(mut input) => reading::show_subframes(rt, &mut input, name).status(),
        Err(e) => {
            console::say::say_errno(rt, b"cnav1", name, e);
            1
        }
    }
}

// How the program is called.
fn usage(rt: &HostRuntime) -> u8 {
    console::say::complain(rt, b"usage: cnav1 FILE\n");
    2
}

// The program by its arguments; the status.
fn run(rt: &HostRuntime, a: Args) -> u8 {
    if own_count(a) != 1 {
        return usage(rt);
    }
    let mut path = io::buffer();
    let p = own(rt, a, 0, &mut path);
    if let Some(e) = p.error {
        console::say::say_errno(rt, b"cnav1", b"argument", e);
        return 1;
    }
    let n = p.count;
    if console::words::is_option(&path[..n]) {
        return usage(rt);
    }
    show_file(rt, &path[..n])
}

fn main(rt: HostRuntime) {
    let a = console::args::begin(&rt);
    let status = run(&rt, a);
    console::args::end(a, status);
}
