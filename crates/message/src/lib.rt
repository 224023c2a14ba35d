// Channel voice messages of MIDI 1.0 and MIDI 2.0: what the words of a checked packet say, and what
// words a message is written to.
//
// The messages themselves are data types of specs/; here is the word that each is written with.
#![tactic(auto)]

ghost use Rattle.std.specs.Prelude.{◌≡◌, ◌%◌, ◌^◌};
ghost use Rattle.ump.specs.Word.{channel_of, group_of};
ghost use Rattle.message.specs.Message.{ReadsBack, part, voice_word};

// The word of a type, a status and two bytes, in the group and channel of w. Of the type and the
// status four bits are read.
pub fn voice_word(t: u32, status: u32, a: u8, b: u8, w: u32) -> u32
    ensures { result ≡ voice_word (t % 2 ^ 4) (group_of w) (status % 2 ^ 4) (channel_of w) a b }
{
    let g = ump::group_of(w);
    let c = ump::channel_of(w);
    let head = t % 0x10 * 0x1000_0000 + (g.0 as u32) * 0x100_0000;
    head + status % 0x10 * 0x10_0000 + (c.0 as u32) * 0x1_0000 + (a as u32) * 0x100 + b as u32
}

// Whether a controller is only a part of a message: of a bank, of an address, or of the data that
// goes to an address.
pub fn is_part(i: u8) -> bool
    ensures { result ≡ part i }
{
    (i == 0) | (i == 6) | (i == 32) | (i == 38) | ((96 <= i) & (i <= 101))
}

// What is written reads back as itself, for every message of the two protocols.
pub fn reads_back()
    ensures { ReadsBack }
{}
