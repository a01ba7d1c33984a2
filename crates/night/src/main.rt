// night [OPTION..] PRN[,PRN..] ISSUES LOG..: the frames of the logs go through a ledger for each PRN; then it is written what each lists, and what not.
//
// PRN is that of a correction satellite, 1 to 5 or 59 to 63; up to four of them, such as 59,60,61, share one table, and each frame goes to the ledger
// of its PRN. ISSUES has a line such as C19 37 for each satellite: the issue of its broadcast message at the end of the logs; none is no file and no
// issues, and a file called none is ./none. The logs are read in their order as one stream; - is standard input.
//
//   -e                      a line for each frame
//   -m                      the logs are text, a record to a line: B2B HEX a frame, CNAV1 C19 HEX a subframe 2 of B-CNAV1 heard from that satellite,
//                           whose issue goes over that of ISSUES, D1 C19 HEX a subframe of D1; HEX is the bytes in hexadecimal digits. Blank lines
//                           and what stands behind a # say nothing, and a bad line costs itself alone
//   --csv                   only the table of the rows, with commas; of several PRNs its first column is the PRN
//   --quiet                 no progress lines
//   --min-rows N            unfit with fewer rows (1 if not given)
//   --max-refused PERCENT   unfit if more of the frames are refused
//   --max-age SECONDS       unfit if a row's clock is older than that at the last epoch
//   --max-gap SECONDS       unfit if two neighbouring epochs lie further apart
//
// Of several PRNs it is first said what became of all frames and subframes; then there is a report for each PRN, in the order given, as for one, in
// which only whole frames with the right sync that carry this PRN count. The limits hold for each.
//
// Status: 0 well, 1 an error said on standard error, 2 usage, 3 unfit, also where one PRN alone is.
#![tactic(auto)]

mod before;
mod csv;
mod fit;
mod limits;
mod options;
mod report;

use log_files::command::{has_words, take_night};
use log_files::frames::How;
use log_files::heard::Heard;
use options::Options;

// The room for all that is written: four reports of 174 rows and lines of some 70 bytes, and what stands before them.
const ROOM: usize = 131072;

// All that is written, in one piece. The answer is the status.
fn write(rt: &HostRuntime, heard: &Heard, o: Options) -> u8 {
    let mut room = [0u8; ROOM];
    let a = before::put_before(&mut room, heard, o);
    let b = report::put_reports(&mut room, a, heard, o);
    let n = csv::put_csv(&mut room, b, heard, o.csv);
    if !console::out::write(rt, b"night", &room[..n]) {
        return 1;
    }
    limits::status_of(rt, heard, o)
}

// The logs go through a table, with PRN as argument i of count; then it is written what became of them. The answer is the status.
fn run(rt: &HostRuntime, i: usize, count: usize, o: Options) -> u8 {
    let how = How {
        several: true,
        mixed: o.mixed,
        each: o.each,
        quiet: o.quiet,
    };
    let mut heard = Heard::new();
    match take_night(rt, b"night", i, count, how, &mut heard) {
        Ok(()) => write(rt, &heard, o),
        Err(_) => 1,
    }
}

// How the program is called; the answer is the status.
fn say_usage(rt: &HostRuntime) -> u8 {
    console::say::complain(
        rt,
        b"usage: night [-e] [-m] [--csv] [--quiet] [--min-rows N] [--max-refused PERCENT] [--max-age SECONDS] [--max-gap SECONDS] PRN[,PRN..] ISSUES LOG..\n",
    );
    2
}

// The program from its options on; the answer is the status.
fn status_of(rt: &HostRuntime, first: usize, count: usize) -> u8 {
    let Ok((o, i)) = options::options_from(rt, first, count) else {
        return 2;
    };
    if has_words(i, count) {
        run(rt, i, count, o)
    } else {
        say_usage(rt)
    }
}

fn main(rt: HostRuntime) {
    let a = console::args::begin(&rt);
    let status = status_of(&rt, a.first, a.count);
    console::args::end(a, status);
}
