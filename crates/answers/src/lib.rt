// What all calls for C share: the lengths of the forms, 39 for a lent slice of a wrong length, and all that a verdict says in one number.
#![tactic(auto)]

ghost use Rattle.std.specs.Prelude.{◌≡◌};
ghost use Rattle.verdict.specs.Verdict.{says};
ghost use Rattle.answers.specs.Detail.{detail_in};

use verdict::{Refusal, Verdict};

// The bytes of a row.
pub const ROW_SIZE: usize = 27;

// The bytes of all rows: room for 174.
pub const ROWS_SIZE: usize = 174 * ROW_SIZE;

// What a verdict says in one number: its refusal number, then the first failing group and how many fail, or the number of places.
pub fn detail(v: Verdict) -> u32
    ensures { result ≡ detail_in (says v) }
{
    match v {
        Ok(()) => 0,
        Err(Refusal::Number(n)) => n as u32,
        Err(Refusal::Parity(first, failing)) => 6 + 256 * (first as u32) + 65536 * (failing as u32),
        Err(Refusal::Places(set)) => 19 + 256 * (set as u32),
    }
}
