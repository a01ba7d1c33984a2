// What a taken frame leaves in the bytes of a ledger: its mask, or its orbits. The laws that clocks and codes by place share stand here too.
#![tactic(auto)]

ghost use Rattle.std.specs.Prelude.{◌≡◌};
ghost use Rattle.bits.specs.Pick.{pick};
ghost use Rattle.held_clocks.specs.Clocks.{dropped_clocks};
ghost use Rattle.held_codes.specs.Codes.{cleared_codes};
ghost use Rattle.held_mask.specs.Mask.{mask_at, held_mask, same_mask};
ghost use Rattle.places.specs.Keeps.{orbits_of};
ghost use Rattle.in_force.specs.Bytes.{mask_bytes, kept_orbit, kept_orbits};

use contents::parts::{MaskPart, OrbitPart};
use held_orbits::HeldOrbit;
use places::held_orbit;
use slots::{Slot, slot_named};

// An orbit is kept for a slot where it replaces the one kept there now; the slot then has no code any more.
fn keep_orbit(t: &mut [u8], slot: Slot, h: HeldOrbit)
    ensures { t.new ≡ kept_orbit t.old slot.0 h }
{
    if held_orbits::replace_orbit(t, slot, h) {
        held_codes::drop_code(t, slot);
    }
}

// Orbit records are kept, each for the slot that it names.
fn orbits_by_slot(t: &mut [u8], p: OrbitPart)
    ensures { t.new ≡ kept_orbits t.old (orbits_of 2 p) }
{
    for &o in &p.orbits {
        let h = held_orbit(p.epoch, p.ssr, o);
        keep_orbit(t, slot_named(o.slot), h);
    }
}

// The orbit records are kept.
pub fn take_orbits(t: &mut [u8], kind: u8, p: OrbitPart)
    ensures { t.new ≡ kept_orbits t.old (orbits_of kind p) }
{
    if (kind == 2) | (kind == 6) | (kind == 7) {
        orbits_by_slot(t, p);
    }
}

// If another mask is held than this one, clocks that came by place go, and so do all codes.
fn drop_for(t: &mut [u8], m: MaskPart)
    ensures { t.new
        ≡ pick (same_mask (mask_at t.old) (held_mask m)) t.old (cleared_codes (dropped_clocks t.old 255)) }
{
    if !held_mask::same_mask(t, m) {
        held_clocks::drop_placed(t);
        held_codes::clear_codes(t);
    }
}

// A mask is taken.
pub fn take_mask(t: &mut [u8], m: MaskPart)
    ensures { t.new ≡ mask_bytes t.old m }
{
    drop_for(t, m);
    held_mask::put_mask(t, m);
}
