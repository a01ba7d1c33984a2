// A whole log of frames, by what is in force after it.
ghost use Rattle.std.specs.Prelude.{◌≡◌, ◌+◌, ◌*◌, ◌/◌, ltb};
ghost use Rattle.bits.specs.Pick.{pick};
ghost use Rattle.verdict.specs.Verdict.{says, refused_by};
ghost use Rattle.ledger.specs.Open.{open_refusal};
ghost use Rattle.in_force.specs.Bytes.{take_says, take_bytes, frame_at, run_bytes, frames_of, Replayed};

use crate::Ledger;
use crate::open::open;
use crate::take::take_in;
use verdict::Verdict;

// How many frames a log of n bytes has: pieces of 125, and one more for what is left at the end.
pub fn frame_count(n: usize) -> usize
    ensures { result ≡ (n + 124) / 125 }
{
    if n % 125 == 0 { n / 125 } else { n / 125 + 1 }
}

// Where frame i of a log of n bytes, from 0, begins; the end of the log where there is no such frame.
fn frame_start(n: usize, i: usize) -> usize
    ensures { result ≡ pick (ltb (125 * i) n) (125 * i) n }
{
    if i < frame_count(n) { 125 * i } else { n }
}

// Frame i of a log, from 0, is taken, or refused. Past the end of the log it is an empty one.
pub fn take_nth(t: &mut [u8], log: &[u8], i: usize) -> Verdict
    ensures verdict { says result ≡ take_says t.old (frame_at log.now i) }
    ensures bytes { t.new ≡ take_bytes t.old (frame_at log.now i) }
{
    let a = frame_start(log.len(), i);
    let left = log.len() - a;
    let e = if left < 125 { log.len() } else { a + 125 };
    take_in(t, &log[a..e])
}

// The frames of a log are taken in order.
pub fn take_log(t: &mut [u8], log: &[u8])
    ensures { t.new ≡ run_bytes t.old (frames_of log.now) }
{
    for i in 0..frame_count(log.len()) {
        let _ = take_nth(t, log, i);
    }
}

// A fresh ledger for the PRN has taken the frames of a log: it holds what is in force after them, by looking back.
pub fn replay(ledger: &mut Ledger, prn: u8, log: &[u8]) -> Verdict
    ensures verdict { says result ≡ refused_by (open_refusal prn) }
    ensures ledger { Replayed ledger.old prn log.now ledger.new }
{
    open(ledger, prn)?;
    take_log(ledger, log);
    Ok(())
}
