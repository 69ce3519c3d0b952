// Output lines.
ghost use Rattle.std.specs.Prelude.{◌≡◌, drop, Ok as Answered};
ghost use Rattle.script.specs.Lines.{spoken};
ghost use Rattle.script.specs.Output.{refused};

use crate::faults::{Fault, ToldByNumber};
use crate::texts::LineEnd;

/// The output line of an answer.
#[tactic(auto, using(crate::proofs::Spoken::ok_line))]
fn answered_line(number: usize, answer: u64) -> LineEnd
    ensures { drop result.start result.bytes ≡ spoken number (Answered answer) }
{
    let mut line = LineEnd::new();
    line.prepend_number(answer);
    line.prepend_word(b" ok ");
    line.prepend_number(number as u64);
    line
}

/// The output line of a refusal, which is told by its number and its place.
#[tactic(auto, using(crate::proofs::Spoken::no_line))]
pub(crate) fn refusal_line(number: usize, told: (u8, usize)) -> LineEnd
    ensures { drop result.start result.bytes ≡ refused number told }
{
    let (refused_by, place) = told;
    let mut line = LineEnd::new();
    line.prepend_number(place as u64);
    line.prepend_word(b" ");
    line.prepend_number(u64::from(refused_by));
    line.prepend_word(b" no ");
    line.prepend_number(number as u64);
    line
}

/// The output line of a script's line: the line's number, and what is told of its call.
pub(crate) fn output_line(number: usize, told: Result<u64, Fault>) -> LineEnd
    ensures { drop result.start result.bytes ≡ spoken number told }
{
    match told {
        Ok(answer) => answered_line(number, answer),
        Err(fault) => refusal_line(number, fault.told()),
    }
}
