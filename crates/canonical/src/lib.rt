// Contents with all zero that their type does not carry: what is written, and what reading gives back.
#![tactic(auto)]

ghost use Rattle.std.specs.Prelude.{◌≡◌, ◌<◌, eqb};
ghost use Rattle.bits.specs.Pick.{pick};
ghost use Rattle.contents.specs.Parts.{no_mask};
ghost use Rattle.biases.specs.Biases.{no_biases};
ghost use Rattle.ura_codes.specs.Codes.{no_codes};
ghost use Rattle.canonical_biases.specs.Canon.{canon_biases};
ghost use Rattle.canonical.specs.Canon.{canon_clock, canon_clock_nth, canon_clock_rows, canon_clocks, canon_orbit, canon_orbit_nth, canon_orbit_rows, canon_orbits, canon_codes, canon};

use biases::BiasPart;
use canonical_biases::canon_biases;
use contents::parts::{ClockPart, Contents, MaskPart, OrbitPart};
use layout::{Layout, layout_of};
use records::clock::{Clock, blank_clock};
use records::orbit::{Orbit, blank_orbit};
use std::array;
use ura_codes::CodePart;

// The clock record as its type carries it: without a slot of its own, or blank where its slot is 0.
fn canon_clock(slotted: bool, k: Clock) -> Clock
    ensures { result ≡ canon_clock slotted k }
{
    if !slotted {
        Clock { slot: 0, ..k }
    } else if k.slot == 0 {
        blank_clock()
    } else {
        k
    }
}

// Clock record i, from 0; blank past the count.
fn canon_clock_nth(slotted: bool, n: u8, ks: &[Clock; 23], i: usize) -> Clock
    requires { i < 23 }
    ensures { result ≡ canon_clock_nth slotted n ks.now i }
{
    if i < n as usize {
        canon_clock(slotted, ks[i])
    } else {
        blank_clock()
    }
}

// The clock records of a part.
fn canon_clock_rows(slotted: bool, n: u8, ks: &[Clock; 23]) -> [Clock; 23]
    ensures { result ≡ canon_clock_rows slotted n ks.now }
{
    array::from_fn(|i| canon_clock_nth(slotted, n, ks, i))
}

// A field of w bits, which is none where a type does not have it.
fn kept_if<T: Copy>(w: u8, none: T, v: T) -> T
    ensures { result ≡ pick (eqb w 0) none v }
{
    if w == 0 { none } else { v }
}

// The clock part as its type carries it.
fn canon_clocks(l: Layout, k: ClockPart) -> ClockPart
    ensures { result ≡ canon_clocks l k }
{
    if l.clocks == 0 {
        return contents::parts::no_clocks();
    }
    let clocks = canon_clock_rows(l.slotted, l.clocks, &k.clocks);
    ClockPart {
        iodp: kept_if(l.iodp, 0, k.iodp),
        start: kept_if(l.start, 0, k.start),
        count: l.clocks,
        clocks,
        ..k
    }
}

// The orbit record, blank where its slot is 0.
fn canon_orbit(o: Orbit) -> Orbit
    ensures { result ≡ canon_orbit o }
{
    if o.slot == 0 { blank_orbit() } else { o }
}

// Orbit record i, from 0; blank past the count.
fn canon_orbit_nth(n: u8, os: &[Orbit; 6], i: usize) -> Orbit
    requires { i < 6 }
    ensures { result ≡ canon_orbit_nth n os.now i }
{
    if i < n as usize {
        canon_orbit(os[i])
    } else {
        blank_orbit()
    }
}

// The orbit records of a part.
fn canon_orbit_rows(n: u8, os: &[Orbit; 6]) -> [Orbit; 6]
    ensures { result ≡ canon_orbit_rows n os.now }
{
    array::from_fn(|i| canon_orbit_nth(n, os, i))
}

// The orbit part as its type carries it.
fn canon_orbits(l: Layout, o: OrbitPart) -> OrbitPart
    ensures { result ≡ canon_orbits l o }
{
    if l.orbits == 0 {
        return contents::parts::no_orbits();
    }
    let orbits = canon_orbit_rows(l.orbits, &o.orbits);
    OrbitPart {
        count: l.orbits,
        orbits,
        ..o
    }
}

// The mask part where the type has one.
fn canon_mask(has: bool, m: MaskPart) -> MaskPart
    ensures { result ≡ pick has m no_mask }
{
    if has { m } else { contents::parts::no_mask() }
}

// The bias part where the type is 3.
fn canon_bias_part(kind: u8, b: BiasPart) -> BiasPart
    ensures { result ≡ pick (eqb kind 3) (canon_biases b) no_biases }
{
    if kind == 3 {
        canon_biases(b)
    } else {
        biases::no_biases()
    }
}

// The code part where the type is 5.
fn canon_code_part(kind: u8, u: CodePart) -> CodePart
    ensures { result ≡ pick (eqb kind 5) (canon_codes u) no_codes }
{
    if kind == 5 { u } else { ura_codes::no_codes() }
}

// The contents as their type carries them: blank records, records past a count and absent parts are all zero.
pub fn canonical(c: Contents) -> Contents
    ensures { result ≡ canon c }
{
    let l = layout_of(c.kind, c.clock.count, c.orbit.count);
    Contents {
        kind: c.kind,
        mask: canon_mask(l.mask, c.mask),
        clock: canon_clocks(l, c.clock),
        orbit: canon_orbits(l, c.orbit),
        bias: canon_bias_part(c.kind, c.bias),
        code: canon_code_part(c.kind, c.code),
    }
}
