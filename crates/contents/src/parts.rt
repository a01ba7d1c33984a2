// The parts of a message, and a message's contents.
ghost use Rattle.std.specs.Prelude.{◌≡◌};
ghost use Rattle.contents.specs.Parts.{no_mask, no_clocks, no_orbits, no_contents};

use biases::{BiasPart, no_biases};
use records::clock::{Clock, blank_clock};
use records::orbit::{Orbit, blank_orbit};
use ura_codes::{CodePart, no_codes};

// Type 1: the mask's 255 bits in 32 bytes, slot 1 the high bit of the first; the last bit is 0.
#[derive(Clone, Copy, PartialEq, Eq)]
pub struct MaskPart {
    pub epoch: u32,
    pub ssr: u8,
    pub iodp: u8,
    pub bytes: [u8; 32],
}

// Types 4, 6 and 7: start is the sub-type in type 4, Slot_S in type 6.
#[derive(Clone, Copy, PartialEq, Eq)]
pub struct ClockPart {
    pub epoch: u32,
    pub ssr: u8,
    pub iodp: u8,
    pub start: u16,
    pub count: u8,
    pub clocks: [Clock; 23],
}

// Types 2, 6 and 7.
#[derive(Clone, Copy, PartialEq, Eq)]
pub struct OrbitPart {
    pub epoch: u32,
    pub ssr: u8,
    pub count: u8,
    pub orbits: [Orbit; 6],
}

// What a message says. A part that its type lacks is all zero.
#[derive(Clone, Copy, PartialEq, Eq)]
pub struct Contents {
    pub kind: u8,
    pub mask: MaskPart,
    pub clock: ClockPart,
    pub orbit: OrbitPart,
    pub bias: BiasPart,
    pub code: CodePart,
}

// An absent mask part.
pub fn no_mask() -> MaskPart
    ensures { result ≡ no_mask }
{
    MaskPart {
        epoch: 0,
        ssr: 0,
        iodp: 0,
        bytes: [0; 32],
    }
}

// An absent clock part.
pub fn no_clocks() -> ClockPart
    ensures { result ≡ no_clocks }
{
    ClockPart {
        epoch: 0,
        ssr: 0,
        iodp: 0,
        start: 0,
        count: 0,
        clocks: [blank_clock(); 23],
    }
}

// An absent orbit part.
pub fn no_orbits() -> OrbitPart
    ensures { result ≡ no_orbits }
{
    OrbitPart {
        epoch: 0,
        ssr: 0,
        count: 0,
        orbits: [blank_orbit(); 6],
    }
}

// All-zero contents: what a refusal has.
pub fn no_contents() -> Contents
    ensures { result ≡ no_contents }
{
    Contents {
        kind: 0,
        mask: no_mask(),
        clock: no_clocks(),
        orbit: no_orbits(),
        bias: no_biases(),
        code: no_codes(),
    }
}
