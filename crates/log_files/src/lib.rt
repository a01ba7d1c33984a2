// The logs of a command line go through one table, in their order: logs of bytes, or mixed logs, text with a record to a line.
#![tactic(auto)]

pub mod accounts;
pub mod command;
pub mod frames;
pub mod heard;
mod mixed;
mod plain;
mod prns;
mod stream;
