// What a taken frame leaves in the bytes of a ledger: its clocks.
#![tactic(auto)]

ghost use Rattle.std.specs.Prelude.{◌≡◌, true};
ghost use Rattle.held_clocks.specs.Clocks.{replace_clocks};
ghost use Rattle.held_mask.specs.Mask.{mask_at};
ghost use Rattle.places.specs.Keeps.{clocks_of, needs_mask};

use contents::parts::ClockPart;
use places::{first_place, held_clock, needs_mask};
use slots::{Place, Slot, slot_named};

// Clock records that name their slots are kept.
fn clocks_by_slot(t: &mut [u8], p: ClockPart)
    ensures { t.new ≡ replace_clocks t.old (clocks_of (mask_at t.old) 7 p) }
{
    for &k in &p.clocks {
        let h = held_clock(false, p.epoch, p.ssr, k);
        held_clocks::replace_clock(t, slot_named(k.slot), h);
    }
}

// Clock records from a place on are kept, each for the slot that has its place. After the first filler come only others;
// place 0 names nothing, and the first place follows it.
fn clocks_by_place(t: &mut [u8], kind: u8, p: ClockPart)
    requires { needs_mask kind p ≡ true }
    ensures { t.new ≡ replace_clocks t.old (clocks_of (mask_at t.old) kind p) }
{
    let count = p.count as usize;
    let mut from = Slot(0);
    let mut n = first_place(kind, p);
    let mut j: usize = 0;
    while (j < 23) & (j < count) {
        let slot = mask_walk::nth_after(t, from, n);
        if (slot.0 == 0) & (n.0 != 0) {
            return;
        }
        let h = held_clock(true, p.epoch, p.ssr, p.clocks[j]);
        held_clocks::replace_clock(t, slot, h);
        from = slot;
        n = Place(1);
        j += 1;
    }
}

// The clock records are kept.
pub fn take_clocks(t: &mut [u8], kind: u8, p: ClockPart)
    ensures { t.new ≡ replace_clocks t.old (clocks_of (mask_at t.old) kind p) }
{
    if kind == 7 {
        clocks_by_slot(t, p);
        return;
    }
    if needs_mask(kind, p) {
        clocks_by_place(t, kind, p);
    }
}
