// A log, taken piece by piece into a table: each piece goes, as a frame, to the ledger of its PRN.
#![tactic(auto)]

ghost use Rattle.std.specs.Prelude.{◌≡◌, ◌&&◌, ◌||◌, ◌≤◌, ltb, length, take};
ghost use Rattle.bits.specs.Pick.{pick};
ghost use Rattle.pieces.specs.Pieces.{piece_length};
ghost use Rattle.verdict.specs.Verdict.{says};
ghost use Rattle.ledger_log.specs.Next.{piece_of};
ghost use Rattle.table.specs.Calls.{taking_says, taking_bytes};

use pieces::piece_length;
use verdict::{Verdict, number_of};

// A step through a log: how many bytes the piece has, and the table's verdict on it.
#[derive(Clone, Copy)]
pub struct Step {
    pub length: u8,
    pub verdict: Verdict,
}

// The first n bytes are taken as a frame, or refused.
fn take_first(t: &mut [u8], s: &[u8], n: u8) -> Verdict
    requires { n ≤ length s.now }
    ensures verdict { says result ≡ taking_says t.old (take n s.now) }
    ensures bytes { t.new ≡ taking_bytes t.old (take n s.now) }
{
    let e = n as usize;
    table::take(t, &s[..e])
}

// The bytes of the next piece, where its first 125 bytes were answered with the number n: after 3 to 6, and of bytes that are no table, it is looked
// for, else it is a frame.
fn length_after(s: &[u8], n: u8) -> u8
    ensures { result ≡ pick (ltb n 3 || (ltb 6 n && ltb n 39)) 125 (piece_length s.now) }
{
    if (n < 3) | ((6 < n) & (n < 39)) {
        return 125;
    }
    piece_length(s)
}

// The next piece of the bytes that are left is taken into a table as a frame, or refused. A frame's parity is looked at once.
pub fn take_next(t: &mut [u8], s: &[u8]) -> Step
    ensures length { result.length ≡ piece_length s.now }
    ensures verdict { says result.verdict ≡ taking_says t.old (piece_of s.now) }
    ensures bytes { t.new ≡ taking_bytes t.old (piece_of s.now) }
{
    if s.len() < 125 {
        let n = s.len() as u8;
        return Step {
            length: n,
            verdict: take_first(t, s, n),
        };
    }
    let v = take_first(t, s, 125);
    let n = length_after(s, number_of(v));
    if n == 125 {
        return Step {
            length: n,
            verdict: v,
        };
    }
    Step {
        length: n,
        verdict: take_first(t, s, n),
    }
}
