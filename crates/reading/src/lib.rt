// Reading biases, codes and the whole contents of a message that begins at any bit, and where its parts end.
#![tactic(auto)]

ghost use Rattle.std.specs.Prelude.{◌≡◌, ◌+◌};
ghost use Rattle.contents.specs.Parts.{contents_at, end_at};

use biases::{BiasPart, biases_end, no_biases, read_biases};
use clock_reading::clocks_of;
use contents::parts::Contents;
use contents::read::{kind_of, layout_at};
use layout::end_of;
use mask_reading::mask_of;
use orbit_reading::orbits_of;
use ura_codes::{CodePart, no_codes, read_codes};

// The biases alone of the message that begins at bit at.
pub fn biases_of(s: &[u8], at: u8) -> BiasPart
    ensures { result ≡ (contents_at s.now at).bias }
{
    if kind_of(s, at) == 3 {
        read_biases(s, at as u16 + 6)
    } else {
        no_biases()
    }
}

// Its URA codes alone.
pub fn codes_of(s: &[u8], at: u8) -> CodePart
    ensures { result ≡ (contents_at s.now at).code }
{
    if kind_of(s, at) == 5 {
        read_codes(s, at as u16 + 6)
    } else {
        no_codes()
    }
}

// Where its parts end as the bits stand, counted from its first bit.
pub fn end_at(s: &[u8], at: u8) -> u32
    ensures { result ≡ end_at s.now at }
{
    if kind_of(s, at) == 3 {
        return biases_end(s, at as u16 + 6) - at as u32;
    }
    end_of(layout_at(s, at))
}

// The contents of the message that begins at bit at, its check and its limits left aside.
pub fn contents_at(s: &[u8], at: u8) -> Contents
    ensures { result ≡ contents_at s.now at }
{
    Contents {
        kind: kind_of(s, at),
        mask: mask_of(s, at),
        clock: clocks_of(s, at),
        orbit: orbits_of(s, at),
        bias: biases_of(s, at),
        code: codes_of(s, at),
    }
}
