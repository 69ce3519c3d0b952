// How refusals are told.

use script::{Fault, tell_refusal};
use std::test::Fail;

/// A refusal of a layer here is told by its cause, and any other by whatever number it has.
#[test]
fn told_as_line_0(rt: HostRuntime) -> Result<(), Fail> {
    let mut output = Vec::new(rt.alloc());
    tell_refusal(Fault::OfBook((book::Cause::WrongLength, 208)), &mut output)?;
    tell_refusal((99, 5), &mut output)?;
    assert_eq!(rt; output.as_slice(), b"0 no 3 208\n0 no 99 5\n".as_slice());
    Ok(())
}
