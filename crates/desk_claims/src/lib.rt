// What is claimed of the tuning desk, beside the exactness of its pitches: that it shows what the packets
// of its channel say, by a definition that knows no desk; and the examples of the request.
//
// Each claim is a type in specs/, proved in proofs/, and ensured by an empty function of its name.
#![tactic(auto)]

ghost use Rattle.desk_claims.specs.Examples.{Examples};
ghost use Rattle.desk_claims.specs.History.{History};

// What sounds, and at which pitch, is what the last packets say that speak of it.
pub fn history()
    ensures { History }
{}

// The examples of the request, and the ends of every range.
pub fn examples()
    ensures { Examples }
{}
