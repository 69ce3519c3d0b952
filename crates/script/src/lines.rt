// The line call.
ghost use Rattle.script.specs.Lines.{Asked, Taken};
ghost use Rattle.script.specs.Parsed.{parsed};

use crate::faults::{Cause, Fault, LineFault};
use crate::output::output_line;
use crate::parsing::parse;
use register::Register;
use strength::Strength;

/// What a buffer for an output line has at least.
pub const LINE_BUFFER: usize = 1200;

/// How long an output line is, and the fault that it tells.
#[derive(Clone, Copy, Debug, PartialEq, Eq)]
pub struct Told {
    pub length: usize,
    pub fault: Option<LineFault>,
}

/// Sends the call of a line to the register.
pub(crate) fn ask<'b, 'g, 'r, S: Strength>(
    register: &mut Register<'b, 'g, 'r, S>,
    line: &[u8],
) -> Result<u64, Fault>
    ensures { Asked S.kind (parsed line.now) register.old result register.new }
{
    let call = parse(line)?;
    let answer = register.send(call)?;
    Ok(answer)
}

/// Obeys a line: sends its call, and writes its output line to the front of the buffer. A buffer that is too short is
/// refused, and nothing is sent.
pub fn obey_line<'b, 'g, 'r, S: Strength>(
    register: &mut Register<'b, 'g, 'r, S>,
    number: usize,
    line: &[u8],
    out: &mut [u8],
) -> Result<Told, LineFault>
    ensures { Taken S.kind number line.now register.old out.old result register.new out.new }
{
    if out.len() < LINE_BUFFER {
        let fault = Fault::OfScript((Cause::ShortBuffer, 0));
        return Err(LineFault {
            line: number,
            fault,
        });
    }
    let told = ask(register, line);
    let output = output_line(number, told);
    let text = output.as_bytes();
    let length = text.len();
    out[..length].copy_from_slice(text);
    let fault = told.err().map(|fault| LineFault {
        line: number,
        fault,
    });
    Ok(Told { length, fault })
}
