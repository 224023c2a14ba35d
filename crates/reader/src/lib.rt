// Packets one after another, each a part of the words that were lent, and none of them copied.
//
// Every function is total: past the end there is no packet. What a packet is, is said by ump.
#![tactic(auto)]

ghost use Rattle.std.specs.Prelude.{◌≡◌, ◌<◌, ◌+◌, ◌-◌, MatchOption, [], drop, length};
ghost use Rattle.std.specs.Iterator.{at_most};
ghost use Rattle.ump.specs.Packet;

// The packets of some words: the words are the caller's, and the place says how far they have come in them. They end
// where no whole packet is left.
#[derive(Clone, Copy)]
pub struct Packets<'a> {
    pub words: &'a [u32],
    pub at: usize,
}

// Those from a place on, of which past the end there are none.
pub fn packets_from(words: &[u32], at: usize) -> Packets<'_>
    ensures { (result.words ≡ words.entry) × (result.at ≡ at) }
{
    Packets { words, at }
}

impl<'a> Packets<'a> {
    // The packet at the place, and an empty part where no whole one is left there.
    pub fn packet(self) -> &'a [u32]
        ensures { result.now ≡ Packet.packet (drop self.entry.at self.entry.words.now) }
    {
        ump::packet_at(self.words, self.at)
    }

    // The words that are left: those from the place on.
    pub fn left(self) -> &'a [u32]
        ensures { result.now ≡ drop self.entry.at self.entry.words.now }
    {
        &self.words[self.at.min(self.words.len())..]
    }
}

impl<'a> Iterator for Packets<'a> {
    type Item = &'a [u32];

    ghost next_gives = { λ before result after. (after.words ≡ before.words)
        × (after.at ≡ before.at + length (Packet.packet (drop before.at before.words.now)))
        × MatchOption result (Packet.packet (drop before.at before.words.now) ≡ [])
        (λ packet. (packet.now ≡ Packet.packet (drop before.at before.words.now)) × (0 < length packet.now)) };

    ghost remaining = { λ packets. at_most (length packets.words.now - packets.at) };

    fn next(&mut self) -> Option<&'a [u32]> {
        let packet = self.packet();
        if packet.is_empty() {
            return None;
        }
        self.at += packet.len();
        Some(packet)
    }
}
