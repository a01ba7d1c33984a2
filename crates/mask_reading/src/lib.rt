// Reading a mask part, where its message begins at any bit.
#![tactic(auto)]

ghost use Rattle.std.specs.Prelude.{◌≡◌, ◌+◌, ◌<◌};
ghost use Rattle.contents.specs.Parts.{mask_byte_at, mask_bytes_at, mask_part_at, mask_in, contents_at};

use contents::parts::{MaskPart, no_mask};
use contents::read::layout_at;
use layout::Layout;
use std::array;

// Byte j of the mask, from 0: the bits of eight slots; the last has those of seven, and a 0.
fn mask_byte(s: &[u8], at: u32, j: usize) -> u8
    requires { (at < 100000) × (j < 32) }
    ensures { result ≡ mask_byte_at s.now at j }
{
    let a = at as usize + 8 * j;
    if j < 31 {
        return bits::get8(s, a, 8);
    }
    2 * bits::get8(s, a, 7)
}

// The mask's 255 bits in 32 bytes.
fn read_mask_bytes(s: &[u8], at: u32) -> [u8; 32]
    requires { at < 100000 }
    ensures { result ≡ mask_bytes_at s.now at }
{
    array::from_fn(|j| mask_byte(s, at, j))
}

// The mask part from bit at on.
fn read_mask_part(s: &[u8], at: u32) -> MaskPart
    requires { at < 50000 }
    ensures { result ≡ mask_part_at s.now at }
{
    let a = at as usize;
    let epoch = bits::get32(s, a, 17);
    let ssr = bits::get8(s, a + 17 + 4, 2);
    let iodp = bits::get8(s, a + 17 + 4 + 2, 4);
    let bytes = read_mask_bytes(s, at + 27);
    MaskPart {
        epoch,
        ssr,
        iodp,
        bytes,
    }
}

// The mask part of a message that begins at bit at.
fn mask_in(s: &[u8], at: u8, l: Layout) -> MaskPart
    ensures { result ≡ mask_in s.now at l }
{
    if l.mask {
        read_mask_part(s, at as u32 + l.head as u32)
    } else {
        no_mask()
    }
}

// The mask part alone of the message that begins at bit at.
pub fn mask_of(s: &[u8], at: u8) -> MaskPart
    ensures { result ≡ (contents_at s.now at).mask }
{
    mask_in(s, at, layout_at(s, at))
}
