// Reading an orbit part, where its message begins at any bit.
#![tactic(auto)]

ghost use Rattle.std.specs.Prelude.{◌≡◌, ◌+◌, ◌<◌, ◌≤◌};
ghost use Rattle.contents.specs.Parts.{orbit_nth, orbits_at, orbit_part_at, orbits_in, contents_at};

use contents::parts::{OrbitPart, no_orbits};
use contents::read::layout_at;
use layout::{Layout, orbits_from};
use records::orbit::{Orbit, blank_orbit, orbit_at};
use std::array;

// Orbit record i, from 0, of a row of them; blank past the count.
fn nth_orbit(s: &[u8], at: u32, count: u8, i: usize) -> Orbit
    requires { (at < 100000) × (i < 6) }
    ensures { result ≡ orbit_nth s.now at count i }
{
    if i < count as usize {
        orbit_at(s, at + 69 * i as u32)
    } else {
        blank_orbit()
    }
}

// Six orbit records in a row, those past the count blank.
fn read_orbits(s: &[u8], at: u32, count: u8) -> [Orbit; 6]
    requires { at < 100000 }
    ensures { result ≡ orbits_at s.now at count }
{
    array::from_fn(|i| nth_orbit(s, at, count, i))
}

// The orbit part from bit at on.
fn read_orbit_part(s: &[u8], at: u32, l: Layout) -> OrbitPart
    requires { at < 50000 }
    ensures { result ≡ orbit_part_at s.now at l }
{
    let a = at as usize;
    let epoch = bits::get32(s, a, 17);
    let ssr = bits::get8(s, a + 17 + 4, 2);
    let orbits = read_orbits(s, at + 23, l.orbits);
    OrbitPart {
        epoch,
        ssr,
        count: l.orbits,
        orbits,
    }
}

// The orbit part of a message that begins at bit at.
fn orbits_in(s: &[u8], at: u8, l: Layout) -> OrbitPart
    requires { (l.iodp ≤ 4) × (l.start ≤ 9) }
    ensures { result ≡ orbits_in s.now at l }
{
    let from = at as u32 + orbits_from(l);
    if l.orbits == 0 {
        no_orbits()
    } else {
        read_orbit_part(s, from, l)
    }
}

// The orbit part alone of the message that begins at bit at.
pub fn orbits_of(s: &[u8], at: u8) -> OrbitPart
    ensures { result ≡ (contents_at s.now at).orbit }
{
    orbits_in(s, at, layout_at(s, at))
}
