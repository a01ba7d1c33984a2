// Contents of messages: the parts, and the head by which they are read.
#![tactic(auto)]

pub mod parts;
pub mod read;
