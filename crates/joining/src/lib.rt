// The broadcast issue of a BeiDou satellite, its IODC, put into the broadcast list.
#![tactic(auto)]

ghost use Rattle.std.specs.Prelude.{◌≡◌};
ghost use Rattle.verdict.specs.Verdict.{says, refused_says, refused_by};
ghost use Rattle.joining.specs.Join.{join_refusal, joined};

use broadcast::issues_refusal;
use verdict::{Refused, Verdict};

// Why an issue is not joined: 1, 11, 17, lowest first.
fn refusal_of(issues: &[u16], prn: u16, iodc: u16) -> Result<(), Refused>
    ensures { refused_says result ≡ refused_by (join_refusal issues.now prn iodc) }
{
    if issues.len() != 255 {
        return Err(Refused(1));
    }
    if (prn < 1) | (63 < prn) {
        return Err(Refused(11));
    }
    if 1023 < iodc {
        return Err(Refused(17));
    }
    issues_refusal(issues)
}

// The IODC of a PRN is put at its slot: refusals 1, 11, 17, lowest first. On a refusal the list is as it was.
pub fn join(issues: &mut [u16], prn: u16, iodc: u16) -> Verdict
    ensures verdict { says result ≡ refused_by (join_refusal issues.old prn iodc) }
    ensures entries { issues.new ≡ joined issues.old prn iodc }
{
    refusal_of(issues, prn, iodc)?;
    issues[prn as usize - 1] = iodc;
    Ok(())
}
