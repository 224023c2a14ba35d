// The five-pin sockets: bytes of a MIDI 1.0 cable into packets of one group, and such packets into bytes.
ghost use Rattle.std.specs.Prelude.{◌≡◌, length};
ghost use Rattle.ground.specs.Store.{at_start};
ghost use Rattle.ump.specs.Packet.{packet};
ghost use Rattle.stream.specs.Report.{reported, reported_call};
ghost use Rattle.cable.specs.State.{idle};
ghost use Rattle.inlet.specs.Inlet.{one_in, run_in, took};
ghost use Rattle.inlet.specs.Inlet;
ghost use Rattle.outlet.specs.Outlet.{one_out, run_out};

use cable::Cable;
use inlet::Imported;
use stream::Done;

// A cable on which nothing was heard yet.
#[unsafe(no_mangle)]
pub extern "C" fn quernbrae_cable_idle() -> Cable
    ensures { result ≡ idle 0 }
{
    cable::idle()
}

// One call in: the byte at the start of the bytes.
#[unsafe(no_mangle)]
pub extern "C" fn quernbrae_import(
    cable: Cable,
    group: u8,
    bytes: &[u8],
    out: &mut [u32],
) -> Imported
    ensures report { result ≡ took (one_in group (length out.old) cable bytes.now) }
    ensures output { out.new ≡ at_start
        (one_in group (length out.old) cable bytes.now).sends out.old }
{
    inlet::import(cable, group, bytes, out)
}

// A run in: every byte.
#[unsafe(no_mangle)]
pub extern "C" fn quernbrae_run_import(
    cable: Cable,
    group: u8,
    bytes: &[u8],
    out: &mut [u32],
) -> Imported
    ensures report { result
        ≡ Inlet.reported (run_in group (length out.old) cable bytes.now) }
    ensures output { out.new ≡ at_start
        (run_in group (length out.old) cable bytes.now).sends out.old }
{
    inlet::run_import(cable, group, bytes, out)
}

// One call out: the packet at the start of the words.
#[unsafe(no_mangle)]
pub extern "C" fn quernbrae_export(group: u8, words: &[u32], out: &mut [u8]) -> Done
    ensures report { result ≡ reported_call (packet words.now)
        (one_out group (length out.old) words.now) }
    ensures output { out.new ≡ at_start
        (one_out group (length out.old) words.now).sends out.old }
{
    outlet::export(group, words, out)
}

// A run out: every packet of the words, until one stops it.
#[unsafe(no_mangle)]
pub extern "C" fn quernbrae_run_export(group: u8, words: &[u32], out: &mut [u8]) -> Done
    ensures report { result ≡ reported (run_out group (length out.old) words.now) }
    ensures output { out.new ≡ at_start
        (run_out group (length out.old) words.now).sends out.old }
{
    outlet::run_export(group, words, out)
}
