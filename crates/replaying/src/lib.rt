// A fresh ledger takes the frames of a log, and what is said of each is kept in lent room: the calls qvd_replay and qvd_replay_detail.
#![tactic(auto)]

ghost use Rattle.std.specs.Prelude.{◌≡◌, ◌+◌, ◌/◌, length};
ghost use Rattle.verdict.specs.Verdict.{refused_says, number_in, refused_by};
ghost use Rattle.in_force.specs.Bytes.{run_bytes, frames_of};
ghost use Rattle.answers.specs.Detail.{detail_in};
ghost use Rattle.ledger_calls.specs.Ledger.{verdicts_of, replay_refusal, replay_answer, replay_ledger, replay_verdicts};

use answers::detail;
use frame::is_prn;
use held_mask::LEDGER_SIZE;
use ledger::open::make_fresh;
use ledger::replay::{frame_count, take_nth};
use verdict::{Refused, number_of};

// The frames of a log are taken in order, and the number of each verdict is kept.
fn take_all(t: &mut [u8], log: &[u8], verdicts: &mut [u8])
    requires { length verdicts.old ≡ (length log.now + 124) / 125 }
    ensures bytes { t.new ≡ run_bytes t.old (frames_of log.now) }
    ensures answers { verdicts.new ≡ verdicts_of number_in t.old log.now }
{
    for i in 0..verdicts.len() {
        let n = number_of(take_nth(t, log, i));
        verdicts[i] = n;
    }
}

// The frames of a log are taken in order, and all that each verdict says is kept.
fn take_all_detail(t: &mut [u8], log: &[u8], details: &mut [u32])
    requires { length details.old ≡ (length log.now + 124) / 125 }
    ensures bytes { t.new ≡ run_bytes t.old (frames_of log.now) }
    ensures answers { details.new ≡ verdicts_of detail_in t.old log.now }
{
    for i in 0..details.len() {
        let n = detail(take_nth(t, log, i));
        details[i] = n;
    }
}

// Why a replay is refused, by the lengths of what is lent and the PRN, if it is. 4, 39.
fn replay_refusal(ledger: usize, prn: u8, log: usize, verdicts: usize) -> Result<(), Refused>
    ensures { refused_says result ≡ refused_by (replay_refusal ledger prn log verdicts) }
{
    if ledger != LEDGER_SIZE {
        return Err(Refused(39));
    }
    if verdicts != frame_count(log) {
        return Err(Refused(39));
    }
    if !is_prn(prn) {
        return Err(Refused(4));
    }
    Ok(())
}

// A fresh ledger for a PRN takes all frames of a log, one verdict byte a frame; a rest at the end is one more frame. 4, 39.
pub fn replay(ledger: &mut [u8], prn: u8, log: &[u8], verdicts: &mut [u8]) -> u8
    ensures answer { result ≡ replay_answer ledger.old prn log.now verdicts.old }
    ensures bytes { ledger.new ≡ replay_ledger ledger.old prn log.now verdicts.old }
    ensures answers { verdicts.new ≡ replay_verdicts number_in ledger.old prn log.now verdicts.old }
{
    if let Err(why) = replay_refusal(ledger.len(), prn, log.len(), verdicts.len()) {
        return why.0;
    }
    make_fresh(ledger, prn);
    take_all(ledger, log, verdicts);
    0
}

// A fresh ledger for a PRN takes all frames of a log, and each number also says what 6 and 19 carry. 4, 39.
pub fn replay_detail(ledger: &mut [u8], prn: u8, log: &[u8], details: &mut [u32]) -> u8
    ensures answer { result ≡ replay_answer ledger.old prn log.now details.old }
    ensures bytes { ledger.new ≡ replay_ledger ledger.old prn log.now details.old }
    ensures answers { details.new ≡ replay_verdicts detail_in ledger.old prn log.now details.old }
{
    if let Err(why) = replay_refusal(ledger.len(), prn, log.len(), details.len()) {
        return why.0;
    }
    make_fresh(ledger, prn);
    take_all_detail(ledger, log, details);
    0
}
