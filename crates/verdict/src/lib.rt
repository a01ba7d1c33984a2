// The answer that every reader gives: taken, or refused with one of 01's numbers.
#![tactic(auto)]

ghost use Rattle.std.specs.Prelude.{◌≡◌};
ghost use Rattle.verdict.specs.Verdict.{says, refused_says, number_in, refused_by};
ghost use Rattle.verdict.specs.declared.Refusal.TheVariants.{Number};

// Refused with one of 01's numbers and nothing beside it.
#[derive(Clone, Copy, PartialEq, Eq)]
pub struct Refused(pub u8);

// Refused with one of 01's numbers alone, with 6 and the parity groups that fail (the first, from 1, and how many), or with 19 and the number of places
// that the mask has.
#[derive(Clone, Copy, PartialEq, Eq)]
pub enum Refusal {
    Number(u8),
    Parity(u8, u8),
    Places(u16),
}

// Taken, or why not.
pub type Verdict = Result<(), Refusal>;

impl From<Refused> for Refusal {
    ghost from_gives = { λ r e. e ≡ Number r.0 };

    fn from(r: Refused) -> Refusal {
        Refusal::Number(r.0)
    }
}

// The number of a verdict: 0 is taken.
pub fn number_of(v: Verdict) -> u8
    ensures { result ≡ number_in (says v) }
{
    match v {
        Ok(()) => 0,
        Err(Refusal::Number(n)) => n,
        Err(Refusal::Parity(_, _)) => 6,
        Err(Refusal::Places(_)) => 19,
    }
}

// The verdict of a number: 0 is taken.
pub fn verdict_of(n: u8) -> Verdict
    ensures { says result ≡ refused_by n }
{
    if n == 0 {
        Ok(())
    } else {
        Err(Refusal::Number(n))
    }
}
