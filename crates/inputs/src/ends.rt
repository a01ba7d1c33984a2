// Where things end: the smaller of two positions, and a line that has no more words.
ghost use Rattle.std.specs.Prelude.{◌≤◌};

use console::words::next_word;

// The smaller of two numbers.
pub fn least(a: usize, b: usize) -> usize
    ensures { (result ≤ a) × (result ≤ b) }
{
    a.min(b)
}

// Whether a line has nothing from a position on, but for a comment.
pub(crate) fn is_over(s: &[u8], at: usize) -> bool {
    let w = next_word(s, at);
    let a = w.from;
    let b = w.to;
    a == b || console::words::starts(&s[a..b], b'#')
}
