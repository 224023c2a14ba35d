// Messages of one word, from the word into the output.
ghost use Rattle.std.specs.Prelude.{◌≡◌, ◌≤◌, length};
ghost use Rattle.ump.specs.Word.{message_type};
ghost use Rattle.cable.specs.Put.{Puts};
ghost use Rattle.outlet.specs.Sending.{alone, sends, with_one, with_two};

use crate::rows::send;
use ump::{byte2, byte3, byte4, status};

// The most that a data byte may be.
const MOST: u8 = 127;

// The status byte and one data byte, if that is good.
fn send_with_one(w: u32, out: &mut [u8], to: usize) -> Option<usize>
    requires { to ≤ length out.old }
    ensures { Puts (with_one w) to out.old result out.new }
{
    let a = byte3(w);
    if a <= MOST {
        send([byte2(w), a], out, to)
    } else {
        Some(to)
    }
}

// The status byte and two data bytes, if both are good.
fn send_with_two(w: u32, out: &mut [u8], to: usize) -> Option<usize>
    requires { to ≤ length out.old }
    ensures { Puts (with_two w) to out.old result out.new }
{
    let a = byte3(w);
    let b = byte4(w);
    if (a <= MOST) & (b <= MOST) {
        send([byte2(w), a, b], out, to)
    } else {
        Some(to)
    }
}

// A MIDI 1.0 voice message: program change and channel pressure have one data byte.
pub(crate) fn send_voice(w: u32, out: &mut [u8], to: usize) -> Option<usize>
    requires { (message_type w ≡ 2) × (to ≤ length out.old) }
    ensures { Puts (sends w 0) to out.old result out.new }
{
    if fields::is_voice1_status(w) {
        let s = status(w);
        if (s == 12) | (s == 13) {
            send_with_one(w, out, to)
        } else {
            send_with_two(w, out, to)
        }
    } else {
        Some(to)
    }
}

// Whether a system message is its status byte alone.
fn is_alone(b: u8) -> bool
    ensures { result ≡ alone b }
{
    matches!(b, 0xF6 | 0xF8 | 0xFA | 0xFB | 0xFC | 0xFE | 0xFF)
}

// A system message: F2 has two data bytes, F1 and F3 have one.
pub(crate) fn send_system(w: u32, out: &mut [u8], to: usize) -> Option<usize>
    requires { (message_type w ≡ 1) × (to ≤ length out.old) }
    ensures { Puts (sends w 0) to out.old result out.new }
{
    let b = byte2(w);
    if is_alone(b) {
        return send([b], out, to);
    }
    if b == 0xF2 {
        return send_with_two(w, out, to);
    }
    if (b == 0xF1) | (b == 0xF3) {
        send_with_one(w, out, to)
    } else {
        Some(to)
    }
}
