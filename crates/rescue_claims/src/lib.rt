// Theorems about the rescue of a whole recording. Each stands as a type in specs/ and is proved in
// proofs/; the functions below do nothing and ensure them, so that a check names each.
#![tactic(auto)]

ghost use Rattle.rescue_claims.specs.Rescued.{AddsUp, BufferByBuffer, Headers, KeptExactly, RescuedAgain};
ghost use Rattle.rescue_claims.specs.Rescued.{TicksRound};

// What is written is a header, and nothing else is taken for one.
pub fn headers()
    ensures { Headers }
{}

// What is kept is what 4, 6 and 7 do not refuse.
pub fn kept_exactly()
    ensures { KeptExactly }
{}

// Rescuing the result again drops nothing.
pub fn rescued_again()
    ensures { RescuedAgain }
{}

// The places and counts of the lines add up.
pub fn adds_up()
    ensures { AddsUp }
{}

// The ticks between two stamps.
pub fn ticks_round()
    ensures { TicksRound }
{}

// A recording that is longer than a buffer.
pub fn buffer_by_buffer()
    ensures { BufferByBuffer }
{}
