// The worked examples, as one list under one contract.
#![tactic(auto)]

ghost use Rattle.worked_examples.specs.Examples.{Examples};

// Every worked example holds.
pub fn worked_examples()
    ensures { Examples }
{}
