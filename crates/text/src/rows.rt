// The pieces that other lines are made of: a row of bytes, and a number.
ghost use Rattle.std.specs.Prelude.{◌≡◌, ◌+◌, ◌≤◌, length};
ghost use Rattle.std.proofs.lemmas.List.Edits.{sets};
ghost use Rattle.text.specs.Lines.{decimal, place_if_put, with_row};

use crate::{places, spell};

// Stores a row of bytes.
pub(crate) fn put_row(bytes: &[u8], out: &mut [u8], to: usize)
    requires { to + length bytes.now ≤ length out.old }
    ensures { out.new ≡ sets out.old to bytes.now }
{
    out[to..to + bytes.len()].copy_from_slice(bytes);
}

// Writes a row of bytes from a place on and answers the place after it. Where it does not fit, it writes
// nothing and answers None. An empty row fits at every place.
pub fn row(bytes: &[u8], out: &mut [u8], to: usize) -> Option<usize>
    ensures place { result ≡ place_if_put out.old to bytes.now }
    ensures text { out.new ≡ with_row out.old to bytes.now }
{
    if bytes.is_empty() {
        return Some(to);
    }
    if bytes.len() <= out.len().saturating_sub(to) {
        put_row(bytes, out, to);
        Some(to + bytes.len())
    } else {
        None
    }
}

// Writes a number in decimal in the same way.
pub fn number(n: u64, out: &mut [u8], to: usize) -> Option<usize>
    ensures place { result ≡ place_if_put out.old to (decimal n) }
    ensures text { out.new ≡ with_row out.old to (decimal n) }
{
    let digits = places(n);
    if digits <= out.len().saturating_sub(to) {
        spell(n, 10, digits, out, to);
        Some(to + digits)
    } else {
        None
    }
}
