// What becomes of each frame of the logs: it is counted, and has its line where that is asked for.
ghost use Rattle.io.specs.Counts.{IsPrefixLen};

use crate::heard::{Failed, Heard};
use console::put::{put_byte, put_detail, put_text};
use verdict::{Verdict, number_of};

// How the logs are read: for several PRNs, or for one; as text. And what is said meanwhile: a line on standard output for each frame; no progress
// lines.
#[derive(Clone, Copy)]
pub struct How {
    pub several: bool,
    pub mixed: bool,
    pub each: bool,
    pub quiet: bool,
}

// What became of a frame.
fn put_outcome(room: &mut [u8], at: usize, v: Verdict, kind: u8) -> usize
    ensures { IsPrefixLen result room.new }
{
    let refusal = number_of(v);
    if refusal == 0 {
        return put_text(room, at, b" taken type #", &[u64::from(kind)]);
    }
    let a = put_text(room, at, b" refused #", &[u64::from(refusal)]);
    put_detail(room, a, v)
}

// The line of a frame.
fn write_frame(
    rt: &HostRuntime,
    program: &[u8],
    number: u64,
    v: Verdict,
    kind: u8,
) -> Result<(), Failed> {
    let mut room = [0u8; 80];
    let a = put_text(&mut room, 0, b"frame #", &[number]);
    let b = put_outcome(&mut room, a, v, kind);
    let n = put_byte(&mut room, b, b'\n');
    if console::out::write(rt, program, &room[..n]) {
        Ok(())
    } else {
        Err(Failed)
    }
}

// A line on standard error every 100,000 frames, so that a long night is seen to go on.
fn progress(rt: &HostRuntime, number: u64, quiet: bool) {
    if quiet || number % 100000 != 0 {
        return;
    }
    let mut room = [0u8; 80];
    let n = put_text(&mut room, 0, b"... # frames\n", &[number]);
    console::say::complain(rt, &room[..n]);
}

// A frame that the table answered is counted, and has its line, if that is asked for.
pub(crate) fn count_frame(
    rt: &HostRuntime,
    program: &[u8],
    frame: &[u8],
    v: Verdict,
    how: How,
    heard: &mut Heard,
) -> Result<(), Failed> {
    let n = number_of(v);
    tally::count(&mut heard.tally, n);
    heard.accounts.add(&heard.table, frame, n);
    let number = heard.accounts.all;
    progress(rt, number, how.quiet);
    if how.each {
        write_frame(rt, program, number, v, contents::read::kind_of(frame, 28))?;
    }
    Ok(())
}
