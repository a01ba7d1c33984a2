// The broadcast list: 255 numbers, entry k for slot k.
#![tactic(auto)]

ghost use Rattle.std.specs.Prelude.{◌≡◌};
ghost use Rattle.bits.specs.Some.{any_of};
ghost use Rattle.broadcast.specs.Issues.{is_ill, issues_refusal};
ghost use Rattle.verdict.specs.Verdict.{refused_says, refused_by};

use verdict::Refused;

// Whether some entry is neither 0 to 1023 nor 65535.
fn any_ill(is: &[u16]) -> bool
    ensures { result ≡ any_of is_ill is.now }
{
    is.iter().any(|&x| x > 1023 && x != 65535)
}

// Why a broadcast list is refused: 1 for its length, 17 for an entry.
pub fn issues_refusal(is: &[u16]) -> Result<(), Refused>
    ensures { refused_says result ≡ refused_by (issues_refusal is.now) }
{
    if is.len() != 255 {
        return Err(Refused(1));
    }
    if any_ill(is) {
        return Err(Refused(17));
    }
    Ok(())
}
