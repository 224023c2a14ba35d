// A five-pin cable that comes in: what is remembered of it between two bytes, and what one byte does to
// it. A byte completes a packet, is taken in, is dropped, or cuts off what is open.
//
// Every function is total, and says what it answers by a definition of specs/. Room in an output is not
// asked for here. A `Cable` is what callers keep; the bytes are heard by a `Receiver`, which is the same
// with the held bytes in their places of the packet.
#![tactic(auto)]

mod hearing;
mod receiving;
mod state;

pub use hearing::{hear, needed, receive};
pub use state::{idle, is_sound};

// The status byte of an exclusive, and the byte that ends it.
pub const EXCLUSIVE: u8 = 0xF0;

pub const END_OF_EXCLUSIVE: u8 = 0xF7;

// The most payload bytes that a packet of an exclusive has.
pub const SIX: u8 = 6;

// What is remembered of a cable: plain numbers, which a caller may keep and lend again.
// Kept: the C interface has its six bytes with their count beside them, and numbers for what is open.
#[repr(C)]
#[derive(Clone, Copy)]
pub struct Cable {
    // The voice status that data bytes alone may repeat, or 0.
    pub running: u8,
    // The status of the message that is open, or 0.
    pub status: u8,
    // 1 where a packet of the open exclusive was sent.
    pub begun: u8,
    // How many bytes of what is open are held; the places behind them are 0.
    pub count: u8,
    pub held: [u8; 6],
}

// The same while bytes are heard: the first two held bytes stand in `high` and the other four in `low`,
// as in the two words of the packet that they become.
// Kept: `begun` is a number, since a cable that is not sound comes back from a real time byte as it was.
#[derive(Clone, Copy)]
pub struct Receiver {
    pub running: u8,
    pub status: u8,
    pub begun: u8,
    pub count: u8,
    pub high: u32,
    pub low: u32,
}

// The words that a byte sends: none, that of a message, or the two of a packet of an exclusive.
#[derive(Clone, Copy)]
pub enum Words {
    Nothing,
    One(u32),
    Two(u32, u32),
}

// What a byte comes to, before room is asked for, with what is remembered after it: a cable or a receiver.
#[derive(Clone, Copy)]
pub struct Heard<S> {
    pub answer: u32,
    pub read: usize,
    pub sends: Words,
    pub after: S,
}
