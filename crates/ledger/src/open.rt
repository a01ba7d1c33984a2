// Opening a ledger for one PRN.
ghost use Rattle.std.specs.Prelude.{◌≡◌};
ghost use Rattle.verdict.specs.Verdict.{says, refused_by};
ghost use Rattle.in_force.specs.Bytes.{fresh};
ghost use Rattle.ledger.specs.Open.{open_refusal, open_bytes};

use crate::Ledger;
use frame::is_prn;
use verdict::{Refusal, Verdict};

// The bytes become a fresh ledger for the PRN, whatever they held before.
pub fn make_fresh(t: &mut [u8], prn: u8)
    ensures { t.new ≡ fresh t.old prn }
{
    lent::clear(t);
    if 0 < t.len() {
        t[0] = prn;
    }
}

// A fresh ledger for the PRN; refused 4 for a PRN that is not among the ten.
pub fn open(ledger: &mut Ledger, prn: u8) -> Verdict
    ensures verdict { says result ≡ refused_by (open_refusal prn) }
    ensures bytes { ledger.new ≡ open_bytes ledger.old prn }
{
    if !is_prn(prn) {
        return Err(Refusal::Number(4));
    }
    make_fresh(ledger, prn);
    Ok(())
}
