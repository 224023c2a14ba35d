// Theorems about the five-pin sockets. Each stands as a type in specs/ and is proved in proofs/; the
// functions below do nothing and ensure them, so that a check names each.
#![tactic(auto)]

ghost use Rattle.cable_claims.specs.EveryByte.{EveryByte};
ghost use Rattle.cable_claims.specs.ExclusiveReturns.{ExclusiveReturns};
ghost use Rattle.cable_claims.specs.RealTime.{RealTimeApart};
ghost use Rattle.cable_claims.specs.Room.{Room};
ghost use Rattle.cable_claims.specs.RunningStatus.{RunningStatus};
ghost use Rattle.cable_claims.specs.SocketRefusals.{SocketRefusals};
ghost use Rattle.cable_claims.specs.StaysSound.{StaysSound};
ghost use Rattle.cable_claims.specs.VoiceReturns.{VoiceReturns};

// MIDI 1.0 voice packets, out and in again.
pub fn voice_returns()
    ensures { VoiceReturns }
{}

// A whole exclusive, out and in again.
pub fn exclusive_returns()
    ensures { ExclusiveReturns }
{}

// Real time bytes taken out of a stream.
pub fn real_time_apart()
    ensures { RealTimeApart }
{}

// Every call leaves a sound cable sound.
pub fn stays_sound()
    ensures { StaysSound }
{}

// A run is its calls, and reads every byte once.
pub fn every_byte()
    ensures { EveryByte }
{}

// How long an output has to be.
pub fn room()
    ensures { Room }
{}

// Running status and full status bytes.
pub fn running_status()
    ensures { RunningStatus }
{}

// Each answer exactly in its case, in and out.
pub fn socket_refusals()
    ensures { SocketRefusals }
{}
