//! The script layer: lines, fields, calls, output lines.
#![tactic(auto)]

mod cuts;
mod digits;
mod faults;
mod fields;
mod lines;
mod output;
mod parsing;
mod runs;
mod texts;
mod whole;

pub use faults::{Cause, Fault, LineFault, Refusal, ToldByNumber};
pub use lines::{LINE_BUFFER, Told, obey_line};
pub use parsing::parse;
pub use runs::{LONGEST_SCRIPT, run, tell_refusal};
pub use whole::answers;
