// What a taken frame leaves in the bytes of a ledger: its URA codes.
#![tactic(auto)]

ghost use Rattle.std.specs.Prelude.{◌≡◌};
ghost use Rattle.held_mask.specs.Mask.{mask_at};
ghost use Rattle.places.specs.Keeps.{held_code, codes_of};
ghost use Rattle.in_force.specs.Bytes.{kept_code, kept_codes};

use held_codes::HeldCode;
use places::first_code;
use slots::{Place, Slot};
use ura_codes::CodePart;

// A code is kept for a slot where an orbit is kept for it.
fn keep_code(t: &mut [u8], slot: Slot, code: u8)
    ensures { t.new ≡ kept_code t.old slot.0 (held_code code) }
{
    if held_orbits::has_orbit(t, slot) {
        held_codes::put_code(t, slot, HeldCode { has: true, code });
    }
}

// The codes of a type 5 are kept, each for the slot that has its place and an orbit. After the first filler come only others.
pub fn take_codes(t: &mut [u8], u: CodePart)
    ensures { t.new ≡ kept_codes t.old (codes_of (mask_at t.old) 5 u) }
{
    let mut from = Slot(0);
    let mut n = first_code(u);
    for &code in &u.codes {
        let slot = mask_walk::nth_after(t, from, n);
        if slot.0 == 0 {
            return;
        }
        keep_code(t, slot, code);
        from = slot;
        n = Place(1);
    }
}
