// Type 5: URA codes by place.
#![tactic(auto)]

ghost use Rattle.std.specs.Prelude.{◌≡◌, ◌<◌};
ghost use Rattle.ura_codes.specs.Codes.{codes_at, code_part_at, no_codes};

use std::array;

// The part of a type 5: a sub-type, and 70 URA codes, 8 x class + value each.
#[derive(Clone, Copy, PartialEq, Eq)]
pub struct CodePart {
    pub epoch: u32,
    pub ssr: u8,
    pub iodp: u8,
    pub sub: u8,
    pub codes: [u8; 70],
}

// An absent part.
pub fn no_codes() -> CodePart
    ensures { result ≡ no_codes }
{
    let codes = [0u8; 70];
    CodePart {
        epoch: 0,
        ssr: 0,
        iodp: 0,
        sub: 0,
        codes,
    }
}

// 70 codes in a row.
fn read_row(s: &[u8], at: u32) -> [u8; 70]
    requires { at < 100000 }
    ensures { result ≡ codes_at s.now at }
{
    array::from_fn(|i| bits::get8(s, at as usize + 6 * i, 6))
}

// The part from bit at on, the bit after the type.
pub fn read_codes(s: &[u8], at: u16) -> CodePart
    ensures { result ≡ code_part_at s.now at }
{
    let a = at as usize;
    let epoch = bits::get32(s, a, 17);
    let ssr = bits::get8(s, a + 17 + 4, 2);
    let iodp = bits::get8(s, a + 17 + 4 + 2, 4);
    let sub = bits::get8(s, a + 17 + 4 + 2 + 4, 3);
    let codes = read_row(s, at as u32 + 30);
    CodePart {
        epoch,
        ssr,
        iodp,
        sub,
        codes,
    }
}
