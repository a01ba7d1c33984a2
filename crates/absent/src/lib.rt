// Why a satellite of the mask in force has no row in the list.
#![tactic(auto)]

ghost use Rattle.std.specs.Prelude.{◌≡◌};
ghost use Rattle.absent.specs.Why.{why_of, why_held};

use held_clocks::HeldClock;
use held_orbits::HeldOrbit;
use row::{is_known, is_usable};
use slots::Slot;

// The reason, or Listed where there is none.
#[derive(Clone, Copy)]
pub enum Why {
    Listed,
    Orbit,
    Clock,
    Ssr,
    Corr,
    Ura,
    Unusable,
    Issue,
}

// The first reason that applies to what is in force for a slot, under the mask's IOD SSR.
fn why_of(ssr: u8, o: HeldOrbit, k: HeldClock, issue: u16) -> Why
    ensures { result ≡ why_of ssr o k issue }
{
    if !o.has {
        return Why::Orbit;
    }
    if !k.has {
        return Why::Clock;
    }
    if !((o.ssr == ssr) & (k.ssr == ssr)) {
        return Why::Ssr;
    }
    if o.corr != k.corr {
        return Why::Corr;
    }
    let u = o.ura;
    if !is_known(u) {
        return Why::Ura;
    }
    if !is_usable(o, k) {
        return Why::Unusable;
    }
    if o.iodn != issue {
        return Why::Issue;
    }
    Why::Listed
}

// Why a slot has no row, by what the ledger holds and the slot's issue. Whether the mask has the slot is not looked at.
pub fn why_absent(ledger: &[u8], slot: Slot, issue: u16) -> Why
    ensures { result ≡ why_held ledger.now issue slot.0 }
{
    let o = row::coded_orbit(ledger, slot);
    let k = held_clocks::get_clock(ledger, slot);
    why_of(held_mask::mask_ssr(ledger), o, k, issue)
}
