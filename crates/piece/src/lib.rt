// What a packet carries of a longer message: exclusives and Flex Data come in pieces, each with its place
// in the message and its bytes, and go to the chain of their sort and group. All but the bytes is read from
// the packet's first word.
//
// Every function is total, and says what it finds by a definition of specs/.
#![tactic(auto)]

ghost use Rattle.std.specs.Prelude.{◌≡◌};
ghost use Rattle.piece.specs.Piece.{address_of, exclusive_piece, flex_piece, format_by, format_of, head_by, head_of};
ghost use Rattle.piece.specs.Piece.{shared_of, slot_by, strange_address};

use ump::message_type;

// The message type of exclusives.
pub const EXCLUSIVE: u32 = 3;

// The message type of Flex Data.
pub const FLEX: u32 = 13;

// So many bytes a piece of an exclusive has at most.
pub const EXCLUSIVE_BYTES: usize = 6;

// So many bytes a piece of Flex Data has.
pub const FLEX_BYTES: usize = 12;

// The place of a piece in its message: all of it, its first piece, one between, or its last. A status of an
// exclusive that stands for no place is reserved, and refused before its chain is asked.
#[derive(Clone, Copy, PartialEq, Eq)]
pub enum Format {
    Complete,
    Start,
    Continue,
    End,
    Reserved(u32),
}

impl From<u32> for Format {
    ghost from_gives = { λ number format. format ≡ format_by number };

    fn from(number: u32) -> Format {
        match number {
            0 => Format::Complete,
            1 => Format::Start,
            2 => Format::Continue,
            3 => Format::End,
            _ => Format::Reserved(number),
        }
    }
}

// Stands for the chain of a packet that belongs to none.
// Kept: the C report of a call has this number where a packet names no chain.
pub const NO_CHAIN: usize = 32;

// All of a piece but its bytes: its place in the message, the fields that it shares with the others, what
// it adds to the number of packets, which only Flex Data counts, and how many bytes it has.
#[derive(Clone, Copy)]
pub struct Head {
    pub format: Format,
    pub shared: u32,
    pub adds: u32,
    pub count: usize,
}

// Of Flex Data, the place in the message: bits 23 and 22.
fn format_of(w: u32) -> Format
    ensures { result ≡ format_of w }
{
    Format::from((w >> 22) % 4)
}

// Of Flex Data: bits 21 and 20.
fn address(w: u32) -> u32
    ensures { result ≡ address_of w }
{
    (w >> 20) % 4
}

// Of Flex Data: address, channel, bank and status, which are all the bits below the format.
fn shared(w: u32) -> u32
    ensures { result ≡ shared_of w }
{
    w % 0x400000
}

// Whether a packet is Flex Data for an address that there is none of, by its first word.
pub fn has_strange_address(w: u32) -> bool
    ensures { result ≡ strange_address w }
{
    (message_type(w) == FLEX) & (2 <= address(w))
}

// Where the chain of a packet's group stands among the 32, by its first word: those of Flex Data behind
// those of exclusives. A packet of another type has a place there too, and no chain.
#[tactic(auto, unfolding(crate::specs::Piece::slot_by))]
pub fn slot_of(w: u32) -> usize
    ensures { result ≡ slot_by w }
{
    let group = usize::from(ump::group_of(w).0);
    if message_type(w) == FLEX {
        16 + group
    } else {
        group
    }
}

// An exclusive has nothing to share, and its packets are not counted. A count above six is refused before it
// is asked here.
#[tactic(auto, unfolding(crate::specs::Piece::exclusive_piece))]
fn exclusive_head(w: u32) -> Head
    ensures { result ≡ head_of (exclusive_piece w 0) }
{
    Head {
        format: Format::from(ump::status(w)),
        shared: 0,
        adds: 0,
        count: (ump::count(w) as usize).min(EXCLUSIVE_BYTES),
    }
}

#[tactic(auto, unfolding(crate::specs::Piece::flex_piece))]
fn flex_head(w: u32) -> Head
    ensures { result ≡ head_of (flex_piece w 0 0 0) }
{
    Head {
        format: format_of(w),
        shared: shared(w),
        adds: 1,
        count: FLEX_BYTES,
    }
}

// What a packet's first word says of its piece.
#[tactic(auto, unfolding(crate::specs::Piece::piece_for))]
pub fn head_of(w: u32) -> Head
    ensures { result ≡ head_by w }
{
    if message_type(w) == FLEX {
        flex_head(w)
    } else {
        exclusive_head(w)
    }
}
