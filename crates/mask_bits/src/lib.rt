// The bits of the mask that a ledger keeps, by slot: docs/FORM.md. Any bytes are such a form; bytes past the end are 0.
#![tactic(auto)]

ghost use Rattle.std.specs.Prelude.{◌≡◌};
ghost use Rattle.mask_bits.specs.Bits.{bits_at, bit_at_slot};

use slots::Slot;

// Whether the mask has the bit of a slot; slot 0 has none.
pub fn has_bit(t: &[u8], slot: Slot) -> bool
    ensures { result ≡ bit_at_slot (bits_at t.now) slot.0 }
{
    let s = slot.0;
    if s == 0 {
        return false;
    }
    bits::bit(t, 31 + s as usize) == 1
}
