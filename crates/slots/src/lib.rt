// Slots, places and systems: 01, "Slots and places".
#![tactic(auto)]

ghost use Rattle.std.specs.Prelude.{◌≡◌};
ghost use Rattle.slots.specs.Slots.{satellite_of, slot_named};

// A slot number: 1 to 255; 0 names nothing.
#[derive(Clone, Copy, PartialEq, Eq)]
pub struct Slot(pub u8);

// A place in the mask, counting its set bits from 1.
#[derive(Clone, Copy, PartialEq, Eq)]
pub struct Place(pub u16);

// The system of a slot.
#[derive(Clone, Copy, PartialEq, Eq)]
pub enum System {
    Reserved,
    BeiDou,
    Gps,
    Galileo,
    Glonass,
}

// A satellite by its system and its number there.
#[derive(Clone, Copy, PartialEq, Eq)]
pub struct Satellite {
    pub system: System,
    pub number: u8,
}

// The slot that a record's Sat Slot says. What is above 255 names nothing, as 0 does.
pub fn slot_named(x: u16) -> Slot
    ensures { result.0 ≡ slot_named x }
{
    Slot(u8::try_from(x).unwrap_or(0))
}

// The satellite of a slot; reserved, number 0, where no system has it.
pub fn satellite_of(slot: Slot) -> Satellite
    ensures { result ≡ satellite_of slot.0 }
{
    let s = slot.0;
    let (system, number) = match s {
        1..=63 => (System::BeiDou, s),
        64..=100 => (System::Gps, s - 63),
        101..=137 => (System::Galileo, s - 100),
        138..=174 => (System::Glonass, s - 137),
        _ => (System::Reserved, 0),
    };
    Satellite { system, number }
}
