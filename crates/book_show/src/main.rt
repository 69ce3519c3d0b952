//! Shows a book as a person wants to read it, or says why it is refused.
#![tactic(auto)]

mod failure;
mod faults;
mod input;
mod nouns;
mod numbers;
mod sections;
mod show;
mod strengths;

use book::MOST_BYTES;
use failure::Failure;
use files::file_or_none;
use input::{Kind, arguments};
use show::show;
use std::process::ExitCode;
use strength::{Band, Pair, Reach};

fn run(rt: &HostRuntime) -> Result<(), Failure> {
    let (path, kind) = arguments(rt)?;
    let bytes = file_or_none(rt, path.as_str(), MOST_BYTES as u64 + 1)?;
    // A match, since a name chooses a type here, and just once.
    match kind {
        Kind::Press => show::<Reach>(rt, &bytes),
        Kind::Malaxer => show::<Pair<Reach, Band>>(rt, &bytes),
    }
}

fn main(rt: HostRuntime) -> ExitCode {
    match run(&rt) {
        Ok(()) => ExitCode::SUCCESS,
        Err(failure) => {
            // Where standard error fails too, the status is all that is left to say it.
            let _ = eprintln!(rt; "{failure}");
            ExitCode::FAILURE
        }
    }
}
