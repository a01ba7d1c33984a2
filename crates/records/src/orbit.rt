// The orbit record of 69 bits.
ghost use Rattle.std.specs.Prelude.{◌≡◌};
ghost use Rattle.records.specs.Orbit.{blank_orbit, orbit_at};

use crate::signed::signed;
use ura::{Ura, ura_of};

// Radial, along and cross are raw.
#[derive(Clone, Copy, PartialEq, Eq)]
pub struct Orbit {
    pub slot: u16,
    pub iodn: u16,
    pub corr: u8,
    pub radial: i16,
    pub along: i16,
    pub cross: i16,
    pub ura: Ura,
}

// A record of slot 0: all zero.
pub fn blank_orbit() -> Orbit
    ensures { result ≡ blank_orbit }
{
    Orbit {
        slot: 0,
        iodn: 0,
        corr: 0,
        radial: 0,
        along: 0,
        cross: 0,
        ura: Ura::Unknown,
    }
}

// The orbit record from bit at on; blank where its slot is 0. Its fields are read as two, of 22 and 47 bits.
pub fn orbit_at(s: &[u8], at: u32) -> Orbit
    ensures { result ≡ orbit_at s.now at }
{
    let a0 = at as usize;
    let x = bits::get32(s, a0, 22);
    let slot = (x / 0x2000) as u16;
    if slot == 0 {
        return blank_orbit();
    }
    let iodn = (x / 8 % 0x400) as u16;
    let corr = (x % 8) as u8;
    let a1 = a0 + 22;
    let y = bits::get(s, a1, 47);
    let radial = signed(y / 0x100000000, 0x4000);
    let along = signed(y / 0x80000 % 0x2000, 0x1000);
    let cross = signed(y / 64 % 0x2000, 0x1000);
    let ura = ura_of((y % 64) as u8);
    Orbit {
        slot,
        iodn,
        corr,
        radial,
        along,
        cross,
        ura,
    }
}
