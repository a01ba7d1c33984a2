// The slots that records name: whether one is above 255, and whether one stands twice.
#![tactic(auto)]

ghost use Rattle.std.specs.Prelude.{◌≡◌, ℕ, map};
ghost use Rattle.bits.specs.Some.{any_of};
ghost use Rattle.judge.specs.Judge.{is_high, is_again, clock_slots, orbit_slots, sat_slots, is_named};

use biases::BiasSat;
use records::clock::Clock;
use records::orbit::Orbit;

// What is wrong with some slots: whether one is above 255, and whether one that is not blank stands twice.
#[derive(Clone, Copy)]
pub struct SlotFaults {
    pub high: bool,
    pub again: bool,
}

// A record that names a slot, or 0.
trait Slotted {
    ghost slot_in: { Self → ℕ };

    // Its slot.
    fn slot(&self) -> u16
        ensures { result ≡ slot_in self.now };
}

impl Slotted for Clock {
    ghost slot_in = { λ k. k.slot };

    fn slot(&self) -> u16 {
        self.slot
    }
}

impl Slotted for Orbit {
    ghost slot_in = { λ o. o.slot };

    fn slot(&self) -> u16 {
        self.slot
    }
}

impl Slotted for BiasSat {
    ghost slot_in = { λ b. b.slot };

    fn slot(&self) -> u16 {
        self.slot
    }
}

// Whether a record names a slot. Most often none does, so every record is looked at, with no branch for each.
fn any_named<T: Slotted>(records: &[T]) -> bool
    ensures { result ≡ any_of is_named (map T.slot_in records.now) }
{
    records
        .iter()
        .fold(false, |named, r| named | (r.slot() != 0))
}

// Whether a slot is above 255.
fn any_high<T: Slotted>(records: &[T]) -> bool
    ensures { result ≡ any_of is_high (map T.slot_in records.now) }
{
    records.iter().any(|r| r.slot() > 255)
}

// Whether slot x is not blank and a record names it.
fn again<T: Slotted>(x: u16, records: &[T]) -> bool
    ensures { result ≡ is_again x (map T.slot_in records.now) }
{
    x != 0 && records.iter().any(|r| r.slot() == x)
}

// Whether a slot that is not blank stands twice.
fn any_twice<T: Slotted>(records: &[T]) -> bool
    ensures { result ≡ any_of is_again (map T.slot_in records.now) }
{
    let mut rest = records;
    while let Some((first, others)) = rest.split_first() {
        if again(first.slot(), others) {
            return true;
        }
        rest = others;
    }
    false
}

// What is wrong with the slots of some records. Most often none names a slot.
fn faults<T: Slotted>(records: &[T]) -> SlotFaults
    ensures high { result.high ≡ any_of is_high (map T.slot_in records.now) }
    ensures again { result.again ≡ any_of is_again (map T.slot_in records.now) }
{
    if !any_named(records) {
        return SlotFaults {
            high: false,
            again: false,
        };
    }
    SlotFaults {
        high: any_high(records),
        again: any_twice(records),
    }
}

// What is wrong with the slots of the clock records.
pub fn clock_faults(ks: [Clock; 23]) -> SlotFaults
    ensures high { result.high ≡ any_of is_high (clock_slots ks) }
    ensures again { result.again ≡ any_of is_again (clock_slots ks) }
{
    faults(&ks)
}

// What is wrong with the slots of the orbit records.
pub fn orbit_faults(os: [Orbit; 6]) -> SlotFaults
    ensures high { result.high ≡ any_of is_high (orbit_slots os) }
    ensures again { result.again ≡ any_of is_again (orbit_slots os) }
{
    faults(&os)
}

// What is wrong with the slots of the satellites of a type 3.
pub fn sat_faults(bs: [BiasSat; 31]) -> SlotFaults
    ensures high { result.high ≡ any_of is_high (sat_slots bs) }
    ensures again { result.again ≡ any_of is_again (sat_slots bs) }
{
    faults(&bs)
}
