// How many bits of the mask that a ledger keeps are set: docs/FORM.md. Any bytes are such a form; bytes past the end are 0.
#![tactic(auto)]

ghost use Rattle.std.specs.Prelude.{◌≡◌, ◌+◌, ◌*◌, ◌<◌, ltb};
ghost use Rattle.bits.specs.Table.{table};
ghost use Rattle.contents.specs.Parts.{mask_bit_at};
ghost use Rattle.slots.specs.Slots.{set_count};
ghost use Rattle.mask_bits.specs.Bits.{bits_at};

use slots::Place;

// How many bits of the k-th fifth of the mask, from 0, are set: of 51 bits.
fn ones_in_fifth(t: &[u8], k: usize) -> u32
    requires { k < 5 }
    ensures { result ≡ set_count (table (mask_bit_at t.now (32 + 51 * k)) 51) }
{
    u64::count_ones(bits::get(t, 32 + 51 * k, 51))
}

// How many bits of the mask are set.
pub fn set_count(t: &[u8]) -> u16
    ensures { result ≡ set_count (bits_at t.now) }
{
    let mut n: u32 = 0;
    for k in 0..5 {
        n += ones_in_fifth(t, k);
    }
    n as u16
}

// Whether a place lies past the last set bit. The bits are counted until there are enough.
pub fn is_past_last(t: &[u8], place: Place) -> bool
    ensures { result ≡ ltb (set_count (bits_at t.now)) place.0 }
{
    let sought = u32::from(place.0);
    let mut n: u32 = 0;
    for i in 0..5 {
        n += ones_in_fifth(t, i);
        if sought <= n {
            return false;
        }
    }
    n < sought
}
