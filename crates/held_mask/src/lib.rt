// The mask that a ledger keeps, as lent bytes: docs/FORM.md. Any bytes are such a form; bytes past the end are 0.
#![tactic(auto)]

ghost use Rattle.std.specs.Prelude.{◌≡◌};
ghost use Rattle.contents.specs.Parts.{bits_of};
ghost use Rattle.mask_bits.specs.Bits.{bits_at};
ghost use Rattle.held_mask.specs.Mask.{mask_at, held_mask, same_bits, same_mask, put_mask};

use contents::parts::MaskPart;

// How many bytes a ledger is.
pub const LEDGER_SIZE: usize = 9726;

// Whether a mask is held.
pub fn has_mask(t: &[u8]) -> bool
    ensures { result ≡ (mask_at t.now).has }
{
    lent::byte(t, 1) == 1
}

// The IOD SSR of the mask.
pub fn mask_ssr(t: &[u8]) -> u8
    ensures { result ≡ (mask_at t.now).ssr }
{
    lent::byte(t, 2)
}

// The IODP of the mask.
pub fn mask_iodp(t: &[u8]) -> u8
    ensures { result ≡ (mask_at t.now).iodp }
{
    lent::byte(t, 3)
}

// Whether the bits held are those of these 32 bytes, 51 of them a turn. The 256th is not looked at.
fn same_bits(t: &[u8], bytes: &[u8]) -> bool
    ensures { result ≡ same_bits (bits_at t.now) (bits_of bytes.now) }
{
    for k in 0..5 {
        let i = 51 * k;
        if bits::get(t, 32 + i, 51) != bits::get(bytes, i, 51) {
            return false;
        }
    }
    true
}

// Whether the mask held is this one: IOD SSR, IODP and every bit.
pub fn same_mask(t: &[u8], m: MaskPart) -> bool
    ensures { result ≡ same_mask (mask_at t.now) (held_mask m) }
{
    if !has_mask(t) {
        return false;
    }
    if mask_ssr(t) != m.ssr {
        return false;
    }
    if mask_iodp(t) != m.iodp {
        return false;
    }
    same_bits(t, &m.bytes)
}

// A mask is kept.
pub fn put_mask(t: &mut [u8], m: MaskPart)
    ensures { t.new ≡ put_mask t.old m }
{
    let head = [1, m.ssr, m.iodp];
    lent::store(t, 4, &m.bytes);
    lent::store(t, 1, &head);
}
