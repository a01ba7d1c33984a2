// A ledger for one PRN in bytes that the caller lends: frames are taken into it, one by one or a whole log at once.
#![tactic(auto)]

pub mod open;
pub mod replay;
pub mod take;

use held_mask::LEDGER_SIZE;

// The lent bytes of a ledger; docs/FORM.md says what they hold. Zero bytes hold nothing.
pub type Ledger = [u8; LEDGER_SIZE];
