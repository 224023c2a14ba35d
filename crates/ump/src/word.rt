// The fields of a word.
ghost use Rattle.std.specs.Prelude.{◌≡◌, eqb};
ghost use Rattle.ump.specs.Word.{bank_flag, channel_of, group_of, message_type, record_number};
ghost use Rattle.ump.specs.Word;

use crate::{Channel, Group};

// Bits 31 to 28.
pub fn message_type(w: u32) -> u32
    ensures { result ≡ message_type w }
{
    (w >> 28) % 0x10
}

// Bits 27 to 24.
pub fn group_of(w: u32) -> Group
    ensures { result ≡ group_of w }
{
    Group(((w >> 24) % 0x10) as u8)
}

// Bits 23 to 20.
pub fn status(w: u32) -> u32
    ensures { result ≡ Word.status w }
{
    (w >> 20) % 0x10
}

// Bits 19 to 16.
pub fn channel_of(w: u32) -> Channel
    ensures { result ≡ channel_of w }
{
    Channel(((w >> 16) % 0x10) as u8)
}

// How many payload bytes an exclusive's packet has: bits 19 to 16.
pub fn count(w: u32) -> u32
    ensures { result ≡ Word.count w }
{
    (w >> 16) % 0x10
}

// The highest byte.
pub fn byte1(w: u32) -> u8
    ensures { result ≡ Word.byte1 w }
{
    ((w >> 24) % 0x100) as u8
}

// The second byte, which is the status byte of a system message.
pub fn byte2(w: u32) -> u8
    ensures { result ≡ Word.byte2 w }
{
    ((w >> 16) % 0x100) as u8
}

// The third byte.
pub fn byte3(w: u32) -> u8
    ensures { result ≡ Word.byte3 w }
{
    ((w >> 8) % 0x100) as u8
}

// The lowest byte.
pub fn byte4(w: u32) -> u8
    ensures { result ≡ Word.byte4 w }
{
    (w % 0x100) as u8
}

// The seven bits of a MIDI 1.0 message's first data byte.
pub fn data1(w: u32) -> u8
    ensures { result ≡ Word.data1 w }
{
    ((w >> 8) % 0x80) as u8
}

// The seven bits of its second data byte.
pub fn data2(w: u32) -> u8
    ensures { result ≡ Word.data2 w }
{
    (w % 0x80) as u8
}

// Whether a MIDI 2.0 program change has its bank flag set.
pub fn has_bank(w: u32) -> bool
    ensures { result ≡ eqb (bank_flag w) 1 }
{
    w % 2 == 1
}

// The number of a channel's record: the one place where group and channel are joined.
pub fn record_number(group: Group, channel: Channel) -> usize
    ensures { result ≡ record_number group channel }
{
    let g = group.0;
    let c = channel.0;
    0x10 * (g as usize) + c as usize
}
