//! Files and standard input, read no further than a limit, so that no input exhausts memory.
#![tactic(auto)]

use std::fs::File;
use std::io;
use std::io::{ErrorKind, Read};

/// The first bytes of what a source has.
fn first_bytes<R: Read + Drop>(rt: &HostRuntime, source: R, most: u64) -> io::Result<Vec<u8>> {
    let mut bytes = Vec::new(rt.alloc());
    source.take(most).read_to_end(&mut bytes)?;
    Ok(bytes)
}

/// The first bytes of a file, none where there is no such file.
pub fn file_or_none(rt: &HostRuntime, path: &str, most: u64) -> io::Result<Vec<u8>> {
    match File::open(rt, path) {
        Ok(file) => first_bytes(rt, file, most),
        Err(fault) if fault.kind() == ErrorKind::NotFound => Ok(Vec::new(rt.alloc())),
        Err(fault) => Err(fault),
    }
}

/// The first bytes of standard input.
pub fn input(rt: &HostRuntime, most: u64) -> io::Result<Vec<u8>> {
    first_bytes(rt, rt.stdin(), most)
}
