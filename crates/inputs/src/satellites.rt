// Satellites as RINEX names them, such as C19.
ghost use Rattle.std.specs.Prelude.{◌≤◌, IfSome};
ghost use Rattle.io.specs.Counts.{IsPrefixLen};

use console::put::{put_byte, put_two};
use console::words::number_of;
use slots::{Slot, System, satellite_of};

// The slot of a satellite by its letter and number.
fn slot_of(letter: u8, number: u32) -> Option<u8>
    ensures { IfSome result (λ s. (1 ≤ s) × (s ≤ 174)) }
{
    match (letter, number) {
        (b'C', 1..=63) => Some(number as u8),
        (b'G', 1..=37) => Some(63 + number as u8),
        (b'E', 1..=37) => Some(100 + number as u8),
        (b'R', 1..=37) => Some(137 + number as u8),
        _ => None,
    }
}

// The slot of a satellite as RINEX names it, such as C19.
pub(crate) fn satellite(w: &[u8]) -> Option<u8>
    ensures { IfSome result (λ s. (1 ≤ s) × (s ≤ 174)) }
{
    if w.len() != 3 {
        return None;
    }
    slot_of(w[0], number_of(&w[1..])?)
}

// The number of a BeiDou satellite as RINEX names it, C01 to C63.
pub(crate) fn beidou_of(w: &[u8]) -> Option<u8>
    ensures { IfSome result (λ s. s ≤ 63) }
{
    match satellite(w)? {
        slot @ 1..=63 => Some(slot),
        _ => None,
    }
}

// The letter of a system.
fn letter_of(s: System) -> u8 {
    match s {
        System::Reserved => b'?',
        System::BeiDou => b'C',
        System::Gps => b'G',
        System::Galileo => b'E',
        System::Glonass => b'R',
    }
}

// The name of the satellite of a slot.
pub fn put_name(room: &mut [u8], at: usize, slot: Slot) -> usize
    ensures { IsPrefixLen result room.new }
{
    let s = satellite_of(slot);
    let a = put_byte(room, at, letter_of(s.system));
    put_two(room, a, u64::from(s.number))
}
