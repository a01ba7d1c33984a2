// sheet write [-m] PRN ISSUES LOG.. | sheet read FILE | sheet check [-m] FILE PRN ISSUES LOG..: correction sheets are written, read and checked.
//
//   write   the logs go through a ledger, as with night; then the sheet of its list goes to standard output
//   read    what the sheet in FILE says; or refused 23 at OFFSET, where it is wrong
//   check   the sheet in FILE is held against the list of our logs: accepted left-out N, so many of our rows; or refused, with an offset or a row
//   -m      the logs are text, a record to a line, as with night
//
// PRN is that of the correction satellite, 1 to 5 or 59 to 63. ISSUES has a line such as C19 37 for each satellite: the issue of its broadcast
// message at the end of the logs; none is no file and no issues, and a file called none is ./none. The logs are read in their order as one stream;
// - is standard input.
//
// Status: 0 well, also where a sheet that is read is refused; 1 an error said on standard error, and nothing is written, also where a list gives no
// sheet; 2 usage; 3 a sheet that is checked is not accepted.
#![tactic(auto)]

ghost use Rattle.std.specs.Prelude.{◌≤◌};

mod checking;
mod file;
mod showing;
mod writing;

use inputs::files::{is_arg, is_option};
use log_files::command::has_words;

// How the program is called; the answer is the status.
fn usage(rt: &HostRuntime) -> u8 {
    console::say::complain(
        rt,
        b"usage: sheet write [-m] PRN ISSUES LOG.. | sheet read FILE | sheet check [-m] FILE PRN ISSUES LOG..\n",
    );
    2
}

// The argument behind -m, where that is argument i.
fn behind_mixed(i: usize, mixed: bool) -> usize
    requires { i ≤ 4 }
    ensures { result ≤ 5 }
{
    if mixed { i + 1 } else { i }
}

// sheet write: what stands behind that, from argument i on.
fn run_write(rt: &HostRuntime, i: usize, count: usize) -> u8
    requires { i ≤ 4 }
{
    let mixed = is_arg(rt, i, b"-m");
    let at = behind_mixed(i, mixed);
    if is_option(rt, at) || !has_words(at, count) {
        return usage(rt);
    }
    writing::run(rt, at, count, mixed)
}

// sheet read: what stands behind that, from argument i on.
fn run_read(rt: &HostRuntime, i: usize, count: usize) -> u8
    requires { i ≤ 4 }
{
    if is_option(rt, i) || count != i + 1 {
        return usage(rt);
    }
    showing::run(rt, i)
}

// sheet check: what stands behind that, from argument i on.
fn run_check(rt: &HostRuntime, i: usize, count: usize) -> u8
    requires { i ≤ 4 }
{
    let mixed = is_arg(rt, i, b"-m");
    let at = behind_mixed(i, mixed);
    if is_option(rt, at) || !has_words(at + 1, count) {
        return usage(rt);
    }
    checking::run(rt, at, count, mixed)
}

// The program by its arguments; the status.
fn run(rt: &HostRuntime, first: usize, count: usize) -> u8
    requires { first ≤ 3 }
{
    if is_arg(rt, first, b"write") {
        return run_write(rt, first + 1, count);
    }
    if is_arg(rt, first, b"read") {
        return run_read(rt, first + 1, count);
    }
    if is_arg(rt, first, b"check") {
        return run_check(rt, first + 1, count);
    }
    usage(rt)
}

fn main(rt: HostRuntime) {
    let a = console::args::begin(&rt);
    let status = run(&rt, a.first, a.count);
    console::args::end(a, status);
}
