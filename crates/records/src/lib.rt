// The records of a message: orbit and clock records, raw and scaled numbers.
#![tactic(auto)]

pub mod clock;
pub mod orbit;
pub mod scale;
pub mod signed;
