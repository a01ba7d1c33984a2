// The URA codes that a ledger keeps, each in place of that of a slot's orbit, as lent bytes: docs/FORM.md. Any bytes are such a form; bytes past the end are 0.
#![tactic(auto)]

ghost use Rattle.std.specs.Prelude.{◌≡◌, replicate};
ghost use Rattle.held_codes.specs.Codes.{no_code, held_code_bytes, code_offset, held_code_at, put_code, drop_code, cleared_codes};

use slots::Slot;

// A code as it is kept.
#[derive(Clone, Copy)]
pub struct HeldCode {
    pub has: bool,
    pub code: u8,
}

// A slot that has no code.
pub fn no_code() -> HeldCode
    ensures { result ≡ no_code }
{
    HeldCode {
        has: false,
        code: 0,
    }
}

// Where the code of a slot begins.
fn code_offset(slot: Slot) -> usize
    ensures { result ≡ code_offset slot.0 }
{
    9216 + 2 * usize::from(slot.0.saturating_sub(1))
}

// The code kept for a slot.
pub fn get_code(t: &[u8], slot: Slot) -> HeldCode
    ensures { result ≡ held_code_at t.now slot.0 }
{
    let at = code_offset(slot);
    if lent::byte(t, at) != 1 {
        return no_code();
    }
    HeldCode {
        has: true,
        code: lent::byte(t, at + 1),
    }
}

// A code is kept for a slot; slot 0 is none.
pub fn put_code(t: &mut [u8], slot: Slot, h: HeldCode)
    ensures { t.new ≡ put_code t.old slot.0 h }
{
    if slot.0 == 0 {
        return;
    }
    let at = code_offset(slot);
    let b = [lent::flag(h.has), h.code];
    lent::store(t, at, &b);
}

// Whether a code is kept for a slot.
fn has_code(t: &[u8], slot: Slot) -> bool
    ensures { result ≡ (held_code_at t.now slot.0).has }
{
    lent::byte(t, code_offset(slot)) == 1
}

// A slot has no code any more.
pub fn drop_code(t: &mut [u8], slot: Slot)
    ensures { t.new ≡ drop_code t.old slot.0 }
{
    if has_code(t, slot) {
        put_code(t, slot, no_code());
    }
}

// No slot has a code any more.
pub fn clear_codes(t: &mut [u8])
    ensures { t.new ≡ cleared_codes t.old }
{
    let zeros = [0u8; 510];
    lent::store(t, 9216, &zeros);
}
