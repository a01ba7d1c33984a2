// The orbits that a ledger keeps, as lent bytes: docs/FORM.md. Any bytes are such a form; bytes past the end are 0.
#![tactic(auto)]

ghost use Rattle.std.specs.Prelude.{◌≡◌};
ghost use Rattle.held_orbits.specs.Orbits.{no_orbit, held_orbit_bytes, held_orbit_at, orbit_comes, replace_orbit};

use newest::{Rows, Stamp};
use slots::Slot;
use ura::{Ura, held_ura, ura_kind, ura_quarters};

// How orbits are kept: 24 bytes for each slot.
const ORBITS: Rows = Rows {
    first: 3096,
    size: 24,
    epoch: 1,
    ssr: 5,
    corr: 8,
};

// An orbit as it is kept: its part's epoch and IOD SSR. Radial, along and cross are raw.
#[derive(Clone, Copy)]
pub struct HeldOrbit {
    pub has: bool,
    pub epoch: u32,
    pub ssr: u8,
    pub iodn: u16,
    pub corr: u8,
    pub radial: i16,
    pub along: i16,
    pub cross: i16,
    pub ura: Ura,
}

// A slot that has no orbit.
pub fn no_orbit() -> HeldOrbit
    ensures { result ≡ no_orbit }
{
    HeldOrbit {
        has: false,
        epoch: 0,
        ssr: 0,
        iodn: 0,
        corr: 0,
        radial: 0,
        along: 0,
        cross: 0,
        ura: Ura::Unknown,
    }
}

// The bytes of an orbit.
fn orbit_bytes(h: HeldOrbit) -> [u8; 24]
    ensures { result ≡ held_orbit_bytes h }
{
    let u = h.ura;
    let [e0, e1, e2, e3] = h.epoch.to_be_bytes();
    let [i0, i1] = h.iodn.to_be_bytes();
    let [r0, r1] = lent::zig(h.radial).to_be_bytes();
    let [a0, a1] = lent::zig(h.along).to_be_bytes();
    let [c0, c1] = lent::zig(h.cross).to_be_bytes();
    let [q0, q1, q2, q3] = ura_quarters(u).to_be_bytes();
    let has = lent::flag(h.has);
    let kind = ura_kind(u);
    [
        has, e0, e1, e2, e3, h.ssr, i0, i1, h.corr, r0, r1, a0, a1, c0, c1, kind, q0, q1, q2, q3,
        0, 0, 0, 0,
    ]
}

// Whether an orbit is kept for a slot: its first byte says it.
pub fn has_orbit(t: &[u8], slot: Slot) -> bool
    ensures { result ≡ (held_orbit_at t.now slot.0).has }
{
    lent::byte(t, ORBITS.offset(slot.0)) == 1
}

// The orbit kept for a slot.
pub fn get_orbit(t: &[u8], slot: Slot) -> HeldOrbit
    ensures { result ≡ held_orbit_at t.now slot.0 }
{
    let at = ORBITS.offset(slot.0);
    if lent::byte(t, at) != 1 {
        return no_orbit();
    }
    let epoch = lent::four(t, at + 1);
    let ssr = lent::byte(t, at + 5);
    let iodn = lent::two(t, at + 6);
    let corr = lent::byte(t, at + 8);
    let radial = lent::zag(lent::two(t, at + 9));
    let along = lent::zag(lent::two(t, at + 11));
    let cross = lent::zag(lent::two(t, at + 13));
    let ura = held_ura(lent::byte(t, at + 15), lent::four(t, at + 16));
    HeldOrbit {
        has: true,
        epoch,
        ssr,
        iodn,
        corr,
        radial,
        along,
        cross,
        ura,
    }
}

// An orbit is kept for a slot where it replaces the one kept there now; slot 0 is none. Answers whether it came into force.
pub fn replace_orbit(t: &mut [u8], slot: Slot, h: HeldOrbit) -> bool
    ensures came { result ≡ orbit_comes t.old slot.0 h }
    ensures bytes { t.new ≡ replace_orbit t.old slot.0 h }
{
    let new = Stamp {
        ssr: h.ssr,
        corr: h.corr,
        epoch: h.epoch,
    };
    if !ORBITS.replaces(t, slot.0, new) {
        return false;
    }
    lent::store(t, ORBITS.offset(slot.0), &orbit_bytes(h));
    true
}
