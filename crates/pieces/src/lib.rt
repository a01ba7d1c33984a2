// The next piece of a log: frames are found by their sync and their parity, not counted off.
#![tactic(auto)]

ghost use Rattle.std.specs.Prelude.{◌≡◌, ◌≤◌};
ghost use Rattle.pieces.specs.Pieces.{is_frame, stands_at, piece_length};

// Whether bytes are a frame with the right sync whose parity groups are all zero. The sync is looked at first.
fn is_frame(f: &[u8]) -> bool
    ensures { result ≡ is_frame f.now }
{
    f.len() == 125 && bits::get16(f, 0, 16) == 0xEB90 && parity::parity_ok(f)
}

// Whether such a frame stands at byte p.
fn stands(s: &[u8], p: usize) -> bool
    requires { p ≤ 125 }
    ensures { result ≡ stands_at s.now p }
{
    p + 125 <= s.len() && is_frame(&s[p..p + 125])
}

// The bytes of the next piece: a frame that stands at the start, else what comes before the first that stands at 1 to 125, else 125, or what is left.
pub fn piece_length(s: &[u8]) -> u8
    ensures { result ≡ piece_length s.now }
{
    if stands(s, 0) {
        return 125;
    }
    for p in 1..126u8 {
        if stands(s, p as usize) {
            return p;
        }
    }
    s.len().min(125) as u8
}
