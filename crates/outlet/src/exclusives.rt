// Packets of exclusives, from their two words into the output.
ghost use Rattle.std.specs.Prelude.{◌≡◌, ◌||◌, eqb, leb, map, ◌+◌, ◌≤◌, length, take};
ghost use Rattle.std.proofs.lemmas.List.Edits.{sets};
ghost use Rattle.ump.specs.Word.{count, message_type, status};
ghost use Rattle.fields.specs.Check.{good_fields, seven};
ghost use Rattle.cable.specs.Put.{Puts};
ghost use Rattle.outlet.specs.Outlet.{six};
ghost use Rattle.outlet.specs.Sending.{clean, framed, payload_number, sends};

use cable::{END_OF_EXCLUSIVE, EXCLUSIVE};
use ump::{byte1, byte2, byte3, byte4, count, status};

// The most payload bytes that a packet has.
const SIX: u32 = 6;

// The highest bit of each of six bytes.
const HIGH_BITS: u64 = 0x808080808080;

// Stores the first n bytes of a payload, which has its first two in the first word.
// Kept: one copy of n bytes in place of the six steps was proved, and took 7 hundredths longer in a run out.
fn put_payload(n: usize, w: u32, v: u32, out: &mut [u8], at: usize)
    requires { (n ≤ 6) × (at + n ≤ length out.old) }
    ensures { out.new ≡ sets out.old at (take n (six w v)) }
{
    if n == 0 {
        return;
    }
    out[at] = byte3(w);
    if n == 1 {
        return;
    }
    out[at + 1] = byte4(w);
    if n == 2 {
        return;
    }
    out[at + 2] = byte1(v);
    if n == 3 {
        return;
    }
    out[at + 3] = byte2(v);
    if n == 4 {
        return;
    }
    out[at + 4] = byte3(v);
    if n == 5 {
        return;
    }
    out[at + 5] = byte4(v);
}

// A packet with no more than six bytes of payload: F0 stands before the complete and the start packet, F7 behind the
// complete and the end packet.
fn send_framed(w: u32, v: u32, out: &mut [u8], to: usize) -> Option<usize>
    requires { (count w ≤ 6) × (to ≤ length out.old) }
    ensures { Puts (framed (leb (status w) 1) (eqb (status w) 0 || eqb (status w) 3) (count w) w v)
        to out.old result out.new }
{
    let form = status(w);
    let opens = form <= 1;
    let closes = (form == 0) | (form == 3);
    let n = count(w) as usize;
    let first = to + usize::from(opens);
    let last = first + n;
    let end = last + usize::from(closes);
    if out.len() < end {
        return None;
    }
    if opens {
        out[to] = EXCLUSIVE;
    }
    put_payload(n, w, v, out, first);
    if closes {
        out[last] = END_OF_EXCLUSIVE;
    }
    Some(end)
}

// The six bytes of a payload as one number.
fn payload_number(w: u32, v: u32) -> u64
    ensures { result ≡ payload_number w v }
{
    (w % 0x10000) as u64 * 0x100000000 + v as u64
}

// Whether the first n bytes of a payload are data bytes, asked of all at once.
fn is_data(n: u32, w: u32, v: u32) -> bool
    requires { n ≤ 6 }
    ensures { result ≡ good_fields (map seven (take n (six w v))) }
{
    let p = payload_number(w, v);
    let shift = 8 * (SIX - n);
    (p >> shift) & HIGH_BITS == 0
}

// Whether nothing of a packet is bad. Bytes behind the count are not asked.
fn is_clean(w: u32, v: u32) -> bool
    requires { message_type w ≡ 3 }
    ensures { result ≡ clean w v }
{
    let n = count(w);
    if n <= SIX {
        (status(w) <= 3) & is_data(n, w, v)
    } else {
        false
    }
}

// A packet of an exclusive, of which nothing is sent where anything is bad.
pub(crate) fn send_exclusive(w: u32, v: u32, out: &mut [u8], to: usize) -> Option<usize>
    requires { (message_type w ≡ 3) × (to ≤ length out.old) }
    ensures { Puts (sends w v) to out.old result out.new }
{
    if is_clean(w, v) {
        send_framed(w, v, out, to)
    } else {
        Some(to)
    }
}
