// The list of the satellites that qualify, by what a ledger holds and the broadcast issues given.
#![tactic(auto)]

pub mod rows;
