// The tally of refusal numbers, lent and counted up in place: 02, CR 14. C lends it as bytes of the form fixed in docs/FORM.md.
#![tactic(auto)]

ghost use Rattle.std.specs.Prelude.{◌≡◌};
ghost use Rattle.tally.specs.Tally.{raised_of, tally_of, counted};

use std::array;

// The bytes of a tally. Zero bytes have counted nothing.
pub const TALLY_SIZE: usize = 160;

// The counters by refusal number, 1 to 39; the first belongs to none.
#[derive(Clone, Copy)]
pub struct Tally {
    pub counts: [u32; 40],
}

// The counter of a refusal number is raised in place; it stops at 4,294,967,295.
pub fn raise(t: &mut Tally, n: u8)
    ensures { t.new ≡ raised_of t.old n }
{
    if n < 1 {
        return;
    }
    if 39 < n {
        return;
    }
    let at = n as usize;
    t.counts[at] = t.counts[at].saturating_add(1);
}

// The counters that the bytes of a tally say.
pub fn tally_of(tally: &[u8]) -> Tally
    ensures { result ≡ tally_of tally.now }
{
    Tally {
        counts: array::from_fn(|i| lent::four(tally, 4 * i)),
    }
}

// A refusal number is counted up: the counters are taken out of the bytes, raised, and the raised one is stored back. 0 is taken, and is not counted;
// bytes of another length than a tally's stay as they were.
pub fn count(tally: &mut [u8], n: u8)
    ensures { tally.new ≡ counted tally.old n }
{
    if tally.len() != TALLY_SIZE {
        return;
    }
    if n < 1 {
        return;
    }
    if 39 < n {
        return;
    }
    let i = n as usize;
    let mut counters = tally_of(tally);
    raise(&mut counters, n);
    let b = counters.counts[i].to_be_bytes();
    lent::store(tally, 4 * i, &b);
}
