// The examples of the rules, worked out from the definitions.
#![tactic(auto)]

ghost use Rattle.examples.specs.Worked.{WorkedExamples};

// The worked examples of docs/RULES.md hold of the definitions.
pub fn worked_examples_hold()
    ensures { WorkedExamples }
{}
