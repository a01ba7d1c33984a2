// The clocks that a ledger keeps, as lent bytes: docs/FORM.md. Any bytes are such a form; bytes past the end are 0.
#![tactic(auto)]

ghost use Rattle.std.specs.Prelude.{◌≡◌};
ghost use Rattle.held_clocks.specs.Clocks.{no_clock, held_clock_bytes, held_clock_at, put_clock, replace_clock, drop_clock, dropped_clocks};

use newest::{Rows, Stamp};
use slots::Slot;

// How clocks are kept: 12 bytes for each slot.
const CLOCKS: Rows = Rows {
    first: 36,
    size: 12,
    epoch: 2,
    ssr: 6,
    corr: 7,
};

// A clock as it is kept: its part's epoch and IOD SSR, and whether it came by place. C0 is raw.
#[derive(Clone, Copy)]
pub struct HeldClock {
    pub has: bool,
    pub placed: bool,
    pub epoch: u32,
    pub ssr: u8,
    pub corr: u8,
    pub c0: i16,
}

// A slot that has no clock.
pub fn no_clock() -> HeldClock
    ensures { result ≡ no_clock }
{
    HeldClock {
        has: false,
        placed: false,
        epoch: 0,
        ssr: 0,
        corr: 0,
        c0: 0,
    }
}

// The bytes of a clock.
fn clock_bytes(h: HeldClock) -> [u8; 12]
    ensures { result ≡ held_clock_bytes h }
{
    let [e0, e1, e2, e3] = h.epoch.to_be_bytes();
    let [z0, z1] = lent::zig(h.c0).to_be_bytes();
    let has = lent::flag(h.has);
    let placed = lent::flag(h.placed);
    [has, placed, e0, e1, e2, e3, h.ssr, h.corr, z0, z1, 0, 0]
}

// The clock kept for a slot.
pub fn get_clock(t: &[u8], slot: Slot) -> HeldClock
    ensures { result ≡ held_clock_at t.now slot.0 }
{
    let at = CLOCKS.offset(slot.0);
    if lent::byte(t, at) != 1 {
        return no_clock();
    }
    let placed = lent::byte(t, at + 1) == 1;
    let epoch = lent::four(t, at + 2);
    let ssr = lent::byte(t, at + 6);
    let corr = lent::byte(t, at + 7);
    let c0 = lent::zag(lent::two(t, at + 8));
    HeldClock {
        has: true,
        placed,
        epoch,
        ssr,
        corr,
        c0,
    }
}

// A clock is kept for a slot; slot 0 is none.
fn put_clock(t: &mut [u8], slot: Slot, h: HeldClock)
    ensures { t.new ≡ put_clock t.old slot.0 h }
{
    if slot.0 == 0 {
        return;
    }
    lent::store(t, CLOCKS.offset(slot.0), &clock_bytes(h));
}

// A clock is kept for a slot where it replaces the one kept there now; slot 0 is none.
pub fn replace_clock(t: &mut [u8], slot: Slot, h: HeldClock)
    ensures { t.new ≡ replace_clock t.old slot.0 h }
{
    let new = Stamp {
        ssr: h.ssr,
        corr: h.corr,
        epoch: h.epoch,
    };
    if CLOCKS.replaces(t, slot.0, new) {
        lent::store(t, CLOCKS.offset(slot.0), &clock_bytes(h));
    }
}

// Whether the clock kept for a slot came by place: its first two bytes say it.
fn is_placed(t: &[u8], slot: Slot) -> bool
    ensures { result ≡ (held_clock_at t.now slot.0).placed }
{
    let at = CLOCKS.offset(slot.0);
    (lent::byte(t, at) == 1) & (lent::byte(t, at + 1) == 1)
}

// A slot's clock is dropped if it came by place.
fn drop_clock(t: &mut [u8], slot: Slot)
    ensures { t.new ≡ drop_clock t.old slot.0 }
{
    if is_placed(t, slot) {
        put_clock(t, slot, no_clock());
    }
}

// All clocks that came by place are dropped.
pub fn drop_placed(t: &mut [u8])
    ensures { t.new ≡ dropped_clocks t.old 255 }
{
    for i in 0..255 {
        drop_clock(t, Slot(i + 1));
    }
}
