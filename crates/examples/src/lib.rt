// The worked examples of the rules, held to the definitions that the contracts of the code use.
#![tactic(auto)]

ghost use Rattle.std.specs.Prelude.{◌≡◌, true};
ghost use Rattle.examples.specs.Table.{WorkedExamples};

pub fn worked_examples_stand() -> bool
    ensures answers { result ≡ true }
    ensures stands { WorkedExamples }
{
    true
}
