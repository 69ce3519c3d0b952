// A whole script.
ghost use Rattle.std.specs.Prelude.{◌≡◌, ◌++◌, OnOk};
ghost use Rattle.script.specs.Output.{refused};
ghost use Rattle.script.specs.Runs.{RanLine, RanScript};

use crate::cuts::Lines;
use crate::faults::{Cause, Fault, ToldByNumber};
use crate::lines::ask;
use crate::output::{output_line, refusal_line};
use register::Register;
use std::alloc::AllocError;
use strength::Strength;

/// The longest script.
pub const LONGEST_SCRIPT: usize = 65_536;

/// Appends the one line that says that a whole script, or its book, is refused: line 0.
pub fn tell_refusal<F: ToldByNumber>(fault: F, output: &mut Vec<u8>) -> Result<(), AllocError>
    ensures { OnOk result (output.new.items ≡ output.old.items ++ refused 0 (F.told fault)) }
{
    output.extend_from_slice(refusal_line(0, fault.told()).as_bytes())
}

// The loans of the arrays are told in clauses of their own, since they last where memory runs out, and nothing else is told then.
/// Obeys one line, and appends its output line.
fn run_line<'b, 'g, 'r, S: Strength>(
    register: &mut Register<'b, 'g, 'r, S>,
    number: usize,
    line: &[u8],
    output: &mut Vec<u8>,
) -> Result<(), AllocError>
    ensures ran { OnOk result (RanLine S.kind number line.now register.old output.old.items register.new output.new.items) }
    ensures lender { register.new.grants.places.ghost_name ≡ register.old.grants.places.ghost_name }
    ensures recorder { register.new.records.places.ghost_name ≡ register.old.records.places.ghost_name }
{
    let told = ask(register, line);
    output.extend_from_slice(output_line(number, told).as_bytes())
}

/// Obeys a script line by line, and appends the output line of each. A script that is too long is refused whole.
pub fn run<'b, 'g, 'r, S: Strength>(
    register: &mut Register<'b, 'g, 'r, S>,
    script: &[u8],
    output: &mut Vec<u8>,
) -> Result<(), AllocError>
    ensures ran { OnOk result (RanScript S.kind script.now register.old output.old.items register.new output.new.items) }
    ensures lender { register.new.grants.places.ghost_name ≡ register.old.grants.places.ghost_name }
    ensures recorder { register.new.records.places.ghost_name ≡ register.old.records.places.ghost_name }
{
    if script.len() > LONGEST_SCRIPT {
        return tell_refusal(Fault::OfScript((Cause::LongScript, LONGEST_SCRIPT)), output);
    }
    for (i, line) in Lines(script).enumerate() {
        run_line(register, i + 1, line, output)?;
    }
    Ok(())
}
