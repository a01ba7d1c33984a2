// The slots that have the places of the mask that a ledger keeps: docs/FORM.md. Any bytes are such a form; bytes past the end are 0.
#![tactic(auto)]

ghost use Rattle.std.specs.Prelude.{◌≡◌, false, ◌+◌, ◌*◌, ◌<◌, ◌≤◌, length, drop, get_or};
ghost use Rattle.bits.specs.Table.{table};
ghost use Rattle.contents.specs.Parts.{mask_bit_at};
ghost use Rattle.slots.specs.Slots.{set_count, nth_from};
ghost use Rattle.mask_bits.specs.Bits.{bits_at};

use slots::{Place, Slot};

// How many of the w bits from slot i + 1 on are set.
fn ones_from(t: &[u8], i: usize, w: usize) -> u16
    requires { (i < 255) × (w ≤ 8) }
    ensures { result ≡ set_count (table (mask_bit_at t.now (32 + i)) w) }
{
    u8::count_ones(bits::get8(t, 32 + i, w)) as u16
}

// How many bits of byte j of the mask, from 0, are set.
fn ones_in_byte(t: &[u8], j: usize) -> u16
    requires { (36 ≤ length t.now) × (j < 32) }
    ensures { result ≡ set_count (table (mask_bit_at t.now (32 + 8 * j)) 8) }
{
    u8::count_ones(t[4 + j]) as u16
}

// The slot of the n-th set bit after slot `from`, counting from 1, bit by bit. Slot 0 where there is none.
fn nth_by_bits(t: &[u8], from: usize, n: u16) -> Slot
    ensures { result.0 ≡ nth_from (drop from (bits_at t.now)) (from + 1) n }
{
    let mut left = n;
    for i in from..255 {
        if bits::bit(t, 32 + i) == 1 {
            if left == 1 {
                return Slot((i + 1) as u8);
            }
            if left != 0 {
                left -= 1;
            }
        }
    }
    Slot(0)
}

// The slot of the n-th set bit from a byte on, counting from 1. A byte with fewer set bits than are sought is passed; the last one is not, since its
// last bit is no slot's.
fn nth_from_byte(t: &[u8], first: usize, n: u16) -> Slot
    requires { (36 ≤ length t.now) × (first ≤ 31) }
    ensures { result.0 ≡ nth_from (drop (8 * first) (bits_at t.now)) (8 * first + 1) n }
{
    let mut left = n;
    for j in first..31 {
        let c = ones_in_byte(t, j);
        if left <= c {
            return nth_by_bits(t, 8 * j, left);
        }
        left -= c;
    }
    nth_by_bits(t, 8 * 31, left)
}

// The slot of the n-th set bit after slot `from`, counting from 1: in the rest of its byte, or from the next byte on.
fn nth_by_bytes(t: &[u8], from: usize, n: u16) -> Slot
    requires { (36 ≤ length t.now) × (from < 248) }
    ensures { result.0 ≡ nth_from (drop from (bits_at t.now)) (from + 1) n }
{
    let c = ones_from(t, from, 8 - from % 8);
    if n <= c {
        return nth_by_bits(t, from, n);
    }
    nth_from_byte(t, from / 8 + 1, n - c)
}

// Whether the bit of slot i + 1 is set.
fn is_set(t: &[u8], i: usize) -> bool
    ensures { result ≡ get_or (bits_at t.now) i false }
{
    i < 255 && bits::bit(t, 32 + i) == 1
}

// The slot of the n-th set bit after slot `from`, counting from 1. Slot 0 where there is none. In the last byte, and in bytes that do not hold a mask, it
// is sought bit by bit.
fn nth_far(t: &[u8], from: usize, n: u16) -> Slot
    ensures { result.0 ≡ nth_from (drop from (bits_at t.now)) (from + 1) n }
{
    if (t.len() < 36) | (from > 247) {
        return nth_by_bits(t, from, n);
    }
    nth_by_bytes(t, from, n)
}

// The slot of the n-th set bit after slot `from`, counting from 1. Slot 0 where there is none. The next one is often the next slot.
pub fn nth_after(t: &[u8], from: Slot, n: Place) -> Slot
    ensures { result.0 ≡ nth_from (drop from.0 (bits_at t.now)) (from.0 + 1) n.0 }
{
    let i = from.0 as usize;
    if n.0 == 1 && is_set(t, i) {
        return Slot((i + 1) as u8);
    }
    nth_far(t, i, n.0)
}
