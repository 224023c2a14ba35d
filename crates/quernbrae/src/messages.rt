// Whole messages out of packets, over the list of chains and the buffer that the caller lends: each call
// and each turn of a run reads the chain of its packet. A call stores it again, a turn only where the chain
// was asked.
ghost use Rattle.std.specs.Prelude.{◌≡◌, drop, length};
ghost use Rattle.chains.specs.Step.{fresh};
ghost use Rattle.chains.specs.Collect.{buffer_after, chains_after, collected_of, whole_list};
ghost use Rattle.chains.specs.Run.{run_of};
ghost use Rattle.chains.specs.Turn.{progress_of};

use chains::{CHAINS, Chain, Collected, Progress};

// A chain before its first packet: none is open. A list of 32 of these is what the first packet needs.
#[unsafe(no_mangle)]
pub extern "C" fn quernbrae_chain_closed() -> Chain
    ensures { result ≡ fresh }
{
    chains::closed_chain()
}

// One call of the collector: the packet at the start of the words goes into its chain, whose bytes stand
// in the buffer.
#[unsafe(no_mangle)]
pub extern "C" fn quernbrae_collect(
    chains: &mut [Chain],
    buffer: &mut [u8],
    words: &[u32],
) -> Collected
    ensures report { result
        ≡ collected_of chains.old buffer.old words.now }
    ensures chains { chains.new
        ≡ chains_after chains.old buffer.old words.now }
    ensures buffer { buffer.new
        ≡ buffer_after chains.old buffer.old words.now }
{
    if chains.len() != CHAINS {
        return chains::unlisted();
    }
    let i = chains::slot_at(words, 0);
    let called = chains::call(chains[i], words, buffer);
    chains[i] = called.chain;
    called.report
}

// A turn of the run at a place of the words, over a list of 32.
pub(crate) fn one(words: &[u32], at: usize, chains: &mut [Chain], buffer: &mut [u8]) -> Progress
    requires { length chains.old ≡ whole_list }
    ensures progress { result
        ≡ progress_of chains.old buffer.old words.now at }
    ensures chains { chains.new
        ≡ chains_after chains.old buffer.old (drop at words.now) }
    ensures buffer { buffer.new
        ≡ buffer_after chains.old buffer.old (drop at words.now) }
{
    let i = chains::slot_at(words, at);
    let turned = chains::run::turn(chains[i], words, at, buffer);
    if let Some(chain) = turned.chain {
        chains[i] = chain;
    }
    turned.progress
}

// The calls at the packets of the words, one after another, until a message is whole, an open chain is
// dropped or a packet is cut.
#[unsafe(no_mangle)]
pub extern "C" fn quernbrae_run_collect(
    chains: &mut [Chain],
    buffer: &mut [u8],
    words: &[u32],
) -> Collected
    ensures report { result
        ≡ (run_of chains.old buffer.old words.now).report }
    ensures chains { chains.new
        ≡ (run_of chains.old buffer.old words.now).chains }
    ensures buffer { buffer.new
        ≡ (run_of chains.old buffer.old words.now).buffer }
{
    let mut progress = chains::run::start(chains.len(), words.len());
    loop {
        match progress {
            Progress::Continue(at) => progress = one(words, at, chains, buffer),
            Progress::Break(report) => return report,
        }
    }
}
