// Theorems about whole messages out of packets: what chains collect over lists of packets, that they do not
// touch, and what each refusal leaves. They are about the definitions that `chains::collect` cites.
//
// Each stands as a type in specs/ and is proved in proofs/. The functions below do nothing and ensure
// them, so that a check names each.
#![tactic(auto)]

ghost use Rattle.chain_claims.specs.Claims.{Alone, Counted, Dropped, Finished, Made, NoTouch};
ghost use Rattle.chain_claims.specs.InOrder.{InOrder};

// A packet changes no chain and no part but its own.
pub fn no_touch()
    ensures { NoTouch }
{}

// What one chain collects depends on its own packets alone.
pub fn alone()
    ensures { Alone }
{}

// A message in packets that fits is finished, and its bytes are the payloads in order.
pub fn finished()
    ensures { Finished }
{}

// Wherever a chain finishes, its bytes are the payloads of its packets in order.
pub fn made()
    ensures { Made }
{}

// Only a 33rd packet of Flex Data is one too many.
pub fn counted()
    ensures { Counted }
{}

// What a refusal leaves of the chain and of its part.
pub fn dropped()
    ensures { Dropped }
{}

// Each answer is given exactly in its case, in the order of the cases.
pub fn in_order()
    ensures { InOrder }
{}
