// The clock record: 18 bits, or 27 with its slot.
ghost use Rattle.std.specs.Prelude.{◌≡◌, true, false, [], ◌∷◌};
ghost use Rattle.bits.specs.Bits.{fields_at};
ghost use Rattle.records.specs.Clock.{blank_clock, clock_of, clock_at};

use crate::signed::signed;

// C0 is raw. In a record with no slot of its own, slot is 0.
#[derive(Clone, Copy, PartialEq, Eq)]
pub struct Clock {
    pub slot: u16,
    pub corr: u8,
    pub c0: i16,
}

// A blank record: all zero.
pub fn blank_clock() -> Clock
    ensures { result ≡ blank_clock }
{
    Clock {
        slot: 0,
        corr: 0,
        c0: 0,
    }
}

// The clock record of a slot, IOD Corr and C0 from bit at on, which are read as one field of 18 bits.
fn clock_of(s: &[u8], at: usize, slot: u16) -> Clock
    ensures { result ≡ clock_of false (slot ∷ fields_at s.now at (3 ∷ 15 ∷ [])) }
{
    let x = bits::get32(s, at, 18);
    let corr = (x / 0x8000) as u8;
    let c0 = signed((x % 0x8000) as u64, 0x4000);
    Clock { slot, corr, c0 }
}

// The clock record from bit at on that begins with its slot; blank where that is 0.
fn slotted_clock(s: &[u8], at: u32) -> Clock
    ensures { result ≡ clock_at true s.now at }
{
    let a0 = at as usize;
    let slot = bits::get16(s, a0, 9);
    if slot == 0 {
        return blank_clock();
    }
    let a1 = a0 + 9;
    clock_of(s, a1, slot)
}

// The clock record from bit at on that has no slot.
fn bare_clock(s: &[u8], at: u32) -> Clock
    ensures { result ≡ clock_at false s.now at }
{
    clock_of(s, at as usize, 0)
}

// The clock record from bit at on, with or without its slot.
pub fn clock_at(s: &[u8], at: u32, slotted: bool) -> Clock
    ensures { result ≡ clock_at slotted s.now at }
{
    if slotted {
        slotted_clock(s, at)
    } else {
        bare_clock(s, at)
    }
}
