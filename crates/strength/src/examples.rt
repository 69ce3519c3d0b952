// Worked examples of reach and band.
ghost use Rattle.strength.specs.Examples.{WorkedExamples};

/// The worked examples hold: the contract states them.
pub fn worked_examples()
    ensures { WorkedExamples }
{}
