// Theorems about the definitions of the translator. Each stands as a type in specs/ and is proved in
// proofs/; the functions below do nothing and ensure them, so that a check names each.
#![tactic(auto)]

ghost use Rattle.claims.specs.Beginners.{Beginners};
ghost use Rattle.claims.specs.Lessons.{Lessons};
ghost use Rattle.claims.specs.Marks.{Marks};
ghost use Rattle.claims.specs.NormalForm.{NormalForm};
ghost use Rattle.claims.specs.OnePupil.{OnePupil};
ghost use Rattle.claims.specs.PacketByPacket.{PacketByPacket};
ghost use Rattle.claims.specs.Picture.{Picture};
ghost use Rattle.claims.specs.Places.{Places};
ghost use Rattle.claims.specs.Refusals.{Refusals};
ghost use Rattle.claims.specs.Room.{Room};
ghost use Rattle.claims.specs.RoundTrip.{RoundTrip, RoundTripFenced, RoundTripGated};
ghost use Rattle.claims.specs.Soundness.{Soundness};
ghost use Rattle.claims.specs.TwoHosts.{TwoHosts};

// Demand 1: a refusal only in its case, in the order of the list.
pub fn refusals()
    ensures { Refusals }
{}

// Which field was bad: the first, and a place is told with answer 7 alone.
pub fn places()
    ensures { Places }
{}

// Demand 2: a run is the calls of its packets.
pub fn packet_by_packet()
    ensures { PacketByPacket }
{}

// Demand 3: up, down and up again sends the same words, from any table in which no bank waits.
pub fn round_trip()
    ensures { RoundTrip }
{}

// Demand 3 with a rule about which packets may pass, up and down.
pub fn round_trip_fenced()
    ensures { RoundTripFenced }
{}

// Demand 3 with a rule about which packets may pass.
pub fn round_trip_gated()
    ensures { RoundTripGated }
{}

// What demand 3 makes of the stream in the middle.
pub fn normal_form()
    ensures { NormalForm }
{}

// How long an output has to be.
pub fn room()
    ensures { Room }
{}

// Which keys are down: what the accepted messages say of them.
pub fn picture()
    ensures { Picture }
{}

// A coarse mark: data entry beside it, and that no packet changes it.
pub fn marks()
    ensures { Marks }
{}

// Records stay sound after every packet.
pub fn soundness()
    ensures { Soundness }
{}

// The lesson run is the run up from its table.
pub fn lessons()
    ensures { Lessons }
{}

// The beginners' room: what is refused there, and that the rest goes up, comes down and goes up again.
pub fn beginners()
    ensures { Beginners }
{}

// Two hosts on one box stand apart, and what holds of one host.
pub fn two_hosts()
    ensures { TwoHosts }
{}

// One pupil at a time: what a channel sends and remembers is that of its own packets alone.
pub fn one_pupil()
    ensures { OnePupil }
{}
