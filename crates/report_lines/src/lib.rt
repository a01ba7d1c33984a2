// The lines of a report: what is said of pieces, of subframes, of a ledger, and the tables of its rows.
#![tactic(auto)]

pub mod counts;
pub mod held;
pub mod rows;
pub mod subframes;
