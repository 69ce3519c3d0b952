//! The malaxer line: rights are held with a reach and a band of temperatures.
#![tactic(auto)]

use panel::serve;
use std::process::ExitCode;
use strength::{Band, Count, Marks, Pair, Reach, Tenths};

fn main(rt: HostRuntime) -> ExitCode {
    let reach = Reach::new(Count(0), Marks(0)).unwrap();
    let band = Band::new(Tenths(0), Tenths(0)).unwrap();
    serve(&rt, "malax.book", Pair::new(reach, band)).map_or(
        ExitCode::FAILURE,
        |()| ExitCode::SUCCESS,
    )
}
