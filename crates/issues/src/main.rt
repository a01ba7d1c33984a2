// issues [-i ISSUES] FILE: the ISSUES file that comes of the B-CNAV1 subframes 2 that were heard, on standard output.
//
// FILE has a line such as C19 HEX for each: the satellite, C01 to C63, and the 75 bytes of the subframe in 150 hexadecimal digits. Of two lines with
// one satellite the later counts. A subframe that is refused is named on standard error with its line and number, and changes nothing. Blank lines
// and what stands behind a # say nothing; - is standard input.
//
//   -i ISSUES   the issues that stand before the first line; none is no issues, as without -i, and a file called none is ./none
//
// Status: 0 well, also where subframes were refused; 1 an error said on standard error, and nothing is written; 2 usage.
#![tactic(auto)]

mod list;
mod reading;

use console::args::{Args, own, own_count, own_is};

// How the program is called; the answer is the status.
fn usage(rt: &HostRuntime) -> u8 {
    console::say::complain(rt, b"usage: issues [-i ISSUES] FILE\n");
    2
}

// The file of a name, over the issues that stand before it; then the list is written. The answer is the status.
fn hear_file(rt: &HostRuntime, name: &[u8], issues: [u16; 255]) -> u8 {
    let mut after = issues;
    if !reading::hear_named(rt, name, &mut after) {
        return 1;
    }
    list::write(rt, &after)
}

// The file of the program's own argument i, over the issues that stand before it.
fn hear_arg(rt: &HostRuntime, a: Args, i: usize, issues: [u16; 255]) -> u8 {
    let mut path = io::buffer();
    let n = own(rt, a, i, &mut path).count;
    hear_file(rt, &path[..n], issues)
}

// Whether the program's own argument i is an option: a minus sign and more.
fn is_option(rt: &HostRuntime, a: Args, i: usize) -> bool {
    let mut path = io::buffer();
    let n = own(rt, a, i, &mut path).count;
    console::words::is_option(&path[..n])
}

// FILE alone, the program's own argument 0.
fn run_file(rt: &HostRuntime, a: Args) -> u8 {
    if is_option(rt, a, 0) {
        return usage(rt);
    }
    if !inputs::files::is_readable(rt, b"issues", a.first) {
        return 1;
    }
    hear_arg(rt, a, 0, [65535u16; 255])
}

// ISSUES and FILE, the program's own arguments 1 and 2.
fn run_both(rt: &HostRuntime, a: Args) -> u8 {
    let i = a.first;
    if i > 3 {
        return usage(rt);
    }
    if is_option(rt, a, 1) || is_option(rt, a, 2) {
        return usage(rt);
    }
    if !inputs::issue_file::may_read_issues(rt, b"issues", i + 1) {
        return 1;
    }
    if !inputs::files::is_readable(rt, b"issues", i + 2) {
        return 1;
    }
    let mut issues = [65535u16; 255];
    if !inputs::issue_file::read_issues(rt, b"issues", i + 1, &mut issues) {
        return 1;
    }
    hear_arg(rt, a, 2, issues)
}

// The program by its arguments; the status.
fn run(rt: &HostRuntime, a: Args) -> u8 {
    let count = own_count(a);
    if count == 1 {
        return run_file(rt, a);
    }
    if count == 3 && own_is(rt, a, 0, b"-i") {
        return run_both(rt, a);
    }
    usage(rt)
}

fn main(rt: HostRuntime) {
    let a = console::args::begin(&rt);
    let status = run(&rt, a);
    console::args::end(a, status);
}
