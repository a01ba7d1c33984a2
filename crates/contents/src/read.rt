// The head of a message that begins at any bit: its type, and what it carries.
ghost use Rattle.std.specs.Prelude.{◌≡◌, ◌+◌};
ghost use Rattle.contents.specs.Parts.{layout_at, contents_at};

use layout::{Layout, layout_of};

// What the message that begins at bit at carries and how wide. The type and the counts are read as one field.
pub fn layout_at(s: &[u8], at: u8) -> Layout
    ensures { result ≡ layout_at s.now at }
{
    let head = bits::get16(s, at as usize, 14);
    let kind = (head / 256) as u8;
    let numc = (head / 8 % 32) as u8;
    let numo = (head % 8) as u8;
    layout_of(kind, numc, numo)
}

// The type of the message that begins at bit at.
#[tactic(auto, unfolding(crate::specs::Parts::contents_at))]
pub fn kind_of(s: &[u8], at: u8) -> u8
    ensures { result ≡ (contents_at s.now at).kind }
{
    bits::get8(s, at as usize, 6)
}
