// The worked examples of the request, proved of the definitions together.
#![tactic(auto)]

ghost use Rattle.examples.specs.Examples.{Examples};

// Each gives what it has to give.
pub fn examples()
    ensures { Examples }
{}
