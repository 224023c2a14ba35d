// A line while it is made, in a buffer of its own, piece by piece. A lent buffer gets it whole or not at all.
ghost use Rattle.std.specs.Prelude.{ℕ, ◌≡◌, ◌∷◌, ◌++◌, ◌+◌, ◌<◌, ◌≤◌, List, [], length, take};
ghost use Rattle.text.specs.Lines.{call_of, decimal, number_then};

use crate::rows::put_row;
use crate::{SPACE, places, spell};
use std::marker::Model;

// How many digits a number has at most.
pub(crate) const DIGITS: usize = 20;

// How long a number and the character after it are at most.
pub(crate) const FIELD_BYTES: usize = DIGITS + 1;

// How long the numbers of a call are at most: three, with a space between them.
pub(crate) const CALL_BYTES: usize = 3 * DIGITS + 2;

// The bytes of the line so far, at most N. A number has at most 20 digits, so each line says by its N what it
// may come to, and where that is too little it is not proved.
#[derive(Drop)]
pub(crate) struct Made<const N: usize> {
    bytes: [u8; N],
    len: usize,
}

impl<const N: usize> Model for Made<N> {
    ghost Value = { List ℕ };

    ghost view = { λ m. take m.len m.bytes };

    ghost invariant = { λ m. m.len ≤ length m.bytes };
}

impl<const N: usize> Made<N> {
    pub(crate) fn new() -> Self
        ensures { result ≡ [] }
    {
        Made {
            bytes: [0; N],
            len: 0,
        }
    }

    pub(crate) fn as_slice(&self) -> &[u8]
        ensures { result.now ≡ self.now }
    {
        &self.bytes[..self.len]
    }

    pub(crate) fn byte(&mut self, b: u8)
        requires { length self.old < N }
        ensures text { self.new ≡ self.old ++ (b ∷ []) }
        ensures longer { length self.new ≡ length self.old + 1 }
    {
        self.bytes[self.len] = b;
        self.len += 1;
    }

    pub(crate) fn row(&mut self, bytes: &[u8])
        requires { length self.old + length bytes.now ≤ N }
        ensures text { self.new ≡ self.old ++ bytes.now }
        ensures longer { length self.new ≡ length self.old + length bytes.now }
    {
        put_row(bytes, &mut self.bytes, self.len);
        self.len += bytes.len();
    }

    // A number in decimal.
    pub(crate) fn number(&mut self, n: u64)
        requires { length self.old + 20 ≤ N }
        ensures text { self.new ≡ self.old ++ decimal n }
        ensures longer { length self.new ≤ length self.old + 20 }
    {
        let digits = places(n);
        spell(n, 10, digits, &mut self.bytes, self.len);
        self.len += digits;
    }

    // A number in decimal, and the character after it.
    pub(crate) fn number_then(&mut self, n: u64, end: u8)
        requires { length self.old + 21 ≤ N }
        ensures text { self.new ≡ self.old ++ number_then end n }
        ensures longer { length self.new ≤ length self.old + 21 }
    {
        self.number(n);
        self.byte(end);
    }

    // The numbers of a call: the answer, the words read, and a place; 0 is none.
    pub(crate) fn call(&mut self, answer: u32, read: usize, place: u32)
        requires { length self.old + 62 ≤ N }
        ensures text { self.new ≡ self.old ++ call_of answer read place }
        ensures longer { length self.new ≤ length self.old + 62 }
    {
        self.number_then(answer as u64, SPACE);
        self.number(read as u64);
        if place != 0 {
            self.byte(SPACE);
            self.number(place as u64);
        }
    }
}
