// What the programs share: arguments and statuses, text put into a lent room, refusals in words, input read in pieces and by lines, words and
// numbers of a line, standard output.
#![tactic(auto)]

pub mod args;
pub mod errors;
pub mod input;
pub mod lines;
pub mod out;
pub mod put;
pub mod refusals;
pub mod say;
pub mod turns;
pub mod words;
