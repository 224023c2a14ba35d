// Packets in a stream of words.
ghost use Rattle.std.specs.Prelude.{◌≡◌, ◌+◌, drop, get_or, length};
ghost use Rattle.ump.specs.Packet.{packet};
ghost use Rattle.ump.specs.Packet;

use crate::word::message_type;

// Two bits for each message type, the lowest for 0: the size less one.
const SIZES: u32 = 0xFE950D40;

// The words of a packet, by its first word.
pub fn size(w: u32) -> usize
    ensures { result ≡ Packet.size w }
{
    let t = message_type(w);
    ((SIZES >> (t * 2)) % 4 + 1) as usize
}

// The word at a place, 0 past the end.
pub fn word_at(words: &[u32], at: usize) -> u32
    ensures { result ≡ get_or words.now at 0 }
{
    if at < words.len() { words[at] } else { 0 }
}

// The packet at a place: its own words, a part of the caller's. An empty part where no whole packet
// is left or the place is past the end.
// Kept: an empty part and no `Option`, since the screening is asked of it too, and answers that it is cut.
pub fn packet_at(words: &[u32], at: usize) -> &[u32]
    ensures { result.now ≡ packet (drop at words.now) }
{
    if words.len() <= at {
        return &words[0..0];
    }
    let n = size(words[at]);
    if words.len() - at < n {
        return &words[0..0];
    }
    let end = at + n;
    &words[at..end]
}

// The place after the packet at a place, and that place itself where there is no whole packet.
pub fn next_place(words: &[u32], at: usize) -> usize
    ensures { result ≡ at + length (packet (drop at words.now)) }
{
    let p = packet_at(words, at);
    at + p.len()
}
