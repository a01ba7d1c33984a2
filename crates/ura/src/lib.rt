// The accuracy index of an orbit record: 01, "URA".
#![tactic(auto)]

ghost use Rattle.std.specs.Prelude.{◌≡◌, ◌<◌};
ghost use Rattle.ura.specs.Ura.{quarters_of, ura_of, code_from, code_of, kind_of, quarters_in, held_ura};

// Code 0, codes 1 to 62 in quarter millimetres, code 63.
#[derive(Clone, Copy, PartialEq, Eq)]
pub enum Ura {
    Unknown,
    Quarters(u32),
    Above,
}

const POWERS: [u32; 8] = [1, 3, 9, 27, 81, 243, 729, 2187];

// The quarter millimetres of a code.
fn quarters(code: u8) -> u32
    requires { code < 64 }
    ensures { result ≡ quarters_of code }
{
    let class = (code / 8) as usize;
    let p = POWERS[class];
    let v = (code % 8) as u32;
    p * (4 + v) - 4
}

// The index that a code says.
pub fn ura_of(code: u8) -> Ura
    ensures { result ≡ ura_of code }
{
    match code {
        0 => Ura::Unknown,
        1..=62 => Ura::Quarters(quarters(code)),
        _ => Ura::Above,
    }
}

// The first code from 1 to 62 that gives q quarters; 64 if none does.
fn seek_code(q: u32) -> u8
    ensures { result ≡ code_from q 1 62 }
{
    for c in 1..63 {
        if quarters(c) == q {
            return c;
        }
    }
    64
}

// The code of an index; 64 if it has none.
pub fn code_of(u: Ura) -> u8
    ensures { result ≡ code_of u }
{
    match u {
        Ura::Unknown => 0,
        Ura::Quarters(q) => seek_code(q),
        Ura::Above => 63,
    }
}

// The kind of an index as a byte: 0 unknown, 1 quarters, 2 above.
pub fn ura_kind(u: Ura) -> u8
    ensures { result ≡ kind_of u }
{
    match u {
        Ura::Unknown => 0,
        Ura::Quarters(_) => 1,
        Ura::Above => 2,
    }
}

// The quarters of an index, 0 where it has none.
pub fn ura_quarters(u: Ura) -> u32
    ensures { result ≡ quarters_in u }
{
    match u {
        Ura::Unknown => 0,
        Ura::Quarters(q) => q,
        Ura::Above => 0,
    }
}

// The index of a kind byte and quarters; any other kind is unknown.
pub fn held_ura(kind: u8, q: u32) -> Ura
    ensures { result ≡ held_ura kind q }
{
    match kind {
        1 => Ura::Quarters(q),
        2 => Ura::Above,
        _ => Ura::Unknown,
    }
}
