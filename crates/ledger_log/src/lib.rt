// The epochs of a log's accepted frames. What a ledger holds after the pieces of a log is said in specs/Next.antt.
#![tactic(auto)]

pub mod epochs;
