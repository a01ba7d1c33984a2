// One satellite's row: whether it qualifies, and what its row says.
#![tactic(auto)]

ghost use Rattle.std.specs.Prelude.{◌≡◌};
ghost use Rattle.bits.specs.Pick.{pick};
ghost use Rattle.ura.specs.Ura.{ura_of};
ghost use Rattle.row.specs.Row.{is_assigned, is_known, usable, agrees, coded, coded_at, row_from, row_held, row_says, answer_of};

use held_clocks::HeldClock;
use held_codes::HeldCode;
use held_orbits::HeldOrbit;
use slots::{Slot, System};
use ura::{Ura, ura_of};
use verdict::Refused;

// A row of the list. Orbit values and clock in tenths of a millimetre.
#[derive(Clone, Copy)]
pub struct Row {
    pub slot: Slot,
    pub system: System,
    pub number: u8,
    pub iodn: u16,
    pub corr: u8,
    pub radial: i32,
    pub along: i32,
    pub cross: i32,
    pub clock: i32,
    pub ura: Ura,
}

// A row, or one of 01's refusal numbers.
pub type RowAnswer = Result<Row, Refused>;

// Whether a slot has a satellite: 1 to 174.
fn is_assigned(slot: Slot) -> bool
    ensures { result ≡ is_assigned slot.0 }
{
    let s = slot.0;
    (1 <= s) & (s <= 174)
}

// Whether a URA's code is not 0.
pub fn is_known(u: Ura) -> bool
    ensures { result ≡ is_known u }
{
    match u {
        Ura::Unknown => false,
        Ura::Quarters(_) => true,
        Ura::Above => true,
    }
}

// Whether the URA is known and no raw value is unusable.
pub fn is_usable(o: HeldOrbit, k: HeldClock) -> bool
    ensures { result ≡ usable o k }
{
    let u = o.ura;
    is_known(u) & (o.radial != -16384) & (o.along != -4096) & (o.cross != -4096) & (k.c0 != -16384)
}

// Whether orbit and clock are there, both carry the mask's IOD SSR, their IOD Corr are equal, and the issue is the IODN.
fn do_agree(ssr: u8, o: HeldOrbit, k: HeldClock, issue: u16) -> bool
    ensures { result ≡ agrees ssr o k issue }
{
    o.has & k.has & (o.ssr == ssr) & (k.ssr == ssr) & (o.corr == k.corr) & (o.iodn == issue)
}

// The URA of a code that is held, else an orbit's own.
fn ura_by(k: HeldCode, own: Ura) -> Ura
    ensures { result ≡ pick k.has (ura_of k.code) own }
{
    if k.has {
        return ura_of(k.code);
    }
    own
}

// An orbit with the URA of the code that replaces its own, where there is one.
fn coded_by(o: HeldOrbit, k: HeldCode) -> HeldOrbit
    ensures { result ≡ coded o k }
{
    let own = o.ura;
    let ura = ura_by(k, own);
    HeldOrbit {
        has: o.has,
        epoch: o.epoch,
        ssr: o.ssr,
        iodn: o.iodn,
        corr: o.corr,
        radial: o.radial,
        along: o.along,
        cross: o.cross,
        ura,
    }
}

// The orbit that the ledger holds for a slot, with the code that it holds for it.
pub fn coded_orbit(ledger: &[u8], slot: Slot) -> HeldOrbit
    ensures { result ≡ coded_at ledger.now slot.0 }
{
    coded_by(
        held_orbits::get_orbit(ledger, slot),
        held_codes::get_code(ledger, slot),
    )
}

// The row of a slot that qualifies.
fn row_from(slot: Slot, o: HeldOrbit, k: HeldClock) -> Row
    ensures { result ≡ row_from slot.0 o k }
{
    let s = slots::satellite_of(slot);
    let system = s.system;
    let ura = o.ura;
    let radial = records::scale::times16(o.radial);
    let along = records::scale::times64(o.along);
    let cross = records::scale::times64(o.cross);
    let clock = records::scale::times16(k.c0);
    Row {
        slot,
        system,
        number: s.number,
        iodn: o.iodn,
        corr: o.corr,
        radial,
        along,
        cross,
        clock,
        ura,
    }
}

// The row of a slot by what the ledger holds and the slot's issue; refused 18 if it does not qualify.
pub fn slot_row(ledger: &[u8], slot: Slot, issue: u16) -> RowAnswer
    ensures { row_says result ≡ answer_of 0 (row_held ledger.now issue slot.0) }
{
    if !is_assigned(slot) {
        return Err(Refused(18));
    }
    if !held_mask::has_mask(ledger) {
        return Err(Refused(18));
    }
    if !mask_bits::has_bit(ledger, slot) {
        return Err(Refused(18));
    }
    let o = coded_orbit(ledger, slot);
    let k = held_clocks::get_clock(ledger, slot);
    if !do_agree(held_mask::mask_ssr(ledger), o, k, issue) {
        return Err(Refused(18));
    }
    if !is_usable(o, k) {
        return Err(Refused(18));
    }
    Ok(row_from(slot, o, k))
}
