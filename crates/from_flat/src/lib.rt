// Contents from the bytes that include/quieuvodan.h fixes, for C and Rust; bytes past the end are 0.
#![tactic(auto)]

ghost use Rattle.std.specs.Prelude.{◌≡◌, ◌<◌};
ghost use Rattle.bits.specs.Bytes.{row_at};
ghost use Rattle.from_flat.specs.Read.{flat_clock_at, flat_clocks_at, flat_orbit_at, flat_orbits_at, flat_mask_in, flat_clocks_in, flat_orbits_in, flat_contents_of};

use contents::parts::{ClockPart, Contents, MaskPart, OrbitPart};
use flat_biases::{read_bias_part, read_code_part};
use flat_numbers::signed16;
use records::clock::Clock;
use records::orbit::Orbit;
use std::array;
use ura::held_ura;

// The mask's 32 bytes.
fn read_mask_bytes(t: &[u8]) -> [u8; 32]
    ensures { result ≡ row_at t.now 7 32 }
{
    array::from_fn(|i| lent::byte(t, 7 + i))
}

// The clock record from byte at on.
fn read_clock(t: &[u8], at: usize) -> Clock
    requires { at < 800 }
    ensures { result ≡ flat_clock_at t.now at }
{
    let slot = lent::two(t, at);
    let corr = lent::byte(t, at + 2);
    let c0 = signed16(lent::two(t, at + 3));
    Clock { slot, corr, c0 }
}

// The 23 clock records.
fn read_clocks(t: &[u8]) -> [Clock; 23]
    ensures { result ≡ flat_clocks_at t.now }
{
    array::from_fn(|i| read_clock(t, 48 + 5 * i))
}

// The orbit record from byte at on.
fn read_orbit(t: &[u8], at: usize) -> Orbit
    requires { at < 800 }
    ensures { result ≡ flat_orbit_at t.now at }
{
    let slot = lent::two(t, at);
    let iodn = lent::two(t, at + 2);
    let corr = lent::byte(t, at + 4);
    let radial = signed16(lent::two(t, at + 5));
    let along = signed16(lent::two(t, at + 7));
    let cross = signed16(lent::two(t, at + 9));
    let ura = held_ura(lent::byte(t, at + 11), lent::four(t, at + 12));
    Orbit {
        slot,
        iodn,
        corr,
        radial,
        along,
        cross,
        ura,
    }
}

// The six orbit records.
fn read_orbits(t: &[u8]) -> [Orbit; 6]
    ensures { result ≡ flat_orbits_at t.now }
{
    array::from_fn(|i| read_orbit(t, 169 + 16 * i))
}

// The mask part.
fn read_mask(t: &[u8]) -> MaskPart
    ensures { result ≡ flat_mask_in t.now }
{
    let epoch = lent::four(t, 1);
    let ssr = lent::byte(t, 5);
    let iodp = lent::byte(t, 6);
    let bytes = read_mask_bytes(t);
    MaskPart {
        epoch,
        ssr,
        iodp,
        bytes,
    }
}

// The clock part.
fn read_clock_part(t: &[u8]) -> ClockPart
    ensures { result ≡ flat_clocks_in t.now }
{
    let epoch = lent::four(t, 39);
    let ssr = lent::byte(t, 43);
    let iodp = lent::byte(t, 44);
    let start = lent::two(t, 45);
    let count = lent::byte(t, 47);
    let clocks = read_clocks(t);
    ClockPart {
        epoch,
        ssr,
        iodp,
        start,
        count,
        clocks,
    }
}

// The orbit part.
fn read_orbit_part(t: &[u8]) -> OrbitPart
    ensures { result ≡ flat_orbits_in t.now }
{
    let epoch = lent::four(t, 163);
    let ssr = lent::byte(t, 167);
    let count = lent::byte(t, 168);
    let orbits = read_orbits(t);
    OrbitPart {
        epoch,
        ssr,
        count,
        orbits,
    }
}

// The contents that bytes say; those past the end are 0.
pub fn contents_of(bytes: &[u8]) -> Contents
    ensures { result ≡ flat_contents_of bytes.now }
{
    let kind = lent::byte(bytes, 0);
    let mask = read_mask(bytes);
    let clock = read_clock_part(bytes);
    let orbit = read_orbit_part(bytes);
    let bias = read_bias_part(bytes);
    let code = read_code_part(bytes);
    Contents {
        kind,
        mask,
        clock,
        orbit,
        bias,
        code,
    }
}
