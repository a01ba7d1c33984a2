// What programs read besides their options: files by name, the issues of the broadcast messages, and lines of frames and subframes in
// hexadecimal digits.
#![tactic(auto)]

pub mod ends;
pub mod files;
pub mod heard;
pub mod hex;
pub mod issue_file;
pub mod record_lines;
pub mod satellites;
