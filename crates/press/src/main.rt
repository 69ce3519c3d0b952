//! The press line: rights are held with a reach.
#![tactic(auto)]

use panel::serve;
use std::process::ExitCode;
use strength::{Count, Marks, Reach};

fn main(rt: HostRuntime) -> ExitCode {
    let filler = Reach::new(Count(0), Marks(0)).unwrap();
    serve(&rt, "press.book", filler).map_or(ExitCode::FAILURE, |()| ExitCode::SUCCESS)
}
