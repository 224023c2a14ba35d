// The state of a cable.
ghost use Rattle.std.specs.Prelude.{◌≡◌, ◌≤◌};
ghost use Rattle.cable.specs.State.{slot, sound, sound_held, voice_byte};
ghost use Rattle.cable.specs.State;

use crate::hearing::needed;
use crate::{Cable, EXCLUSIVE, SIX};

// A status byte of a channel voice message.
fn is_voice(b: u8) -> bool
    ensures { result ≡ voice_byte b }
{
    (0x80 <= b) & (b < 0xF0)
}

// A cable on which nothing was heard yet.
pub fn idle() -> Cable
    ensures { result ≡ State.idle 0 }
{
    Cable {
        running: 0,
        status: 0,
        begun: 0,
        count: 0,
        held: [0; 6],
    }
}

// What may stand at place k where n bytes are held.
fn is_slot(n: u8, k: u8, x: u8) -> bool
    ensures { result ≡ slot n k x }
{
    let most = if k < n { 127 } else { 0 };
    x <= most
}

// Whether the six places have data bytes where bytes are held, and 0 behind them.
fn is_held(s: Cable) -> bool
    ensures { result ≡ sound_held s }
{
    let n = s.count;
    let held = s.held;
    let first = is_slot(n, 0, held[0]) & (is_slot(n, 1, held[1]) & is_slot(n, 2, held[2]));
    let last = is_slot(n, 3, held[3]) & (is_slot(n, 4, held[4]) & is_slot(n, 5, held[5]));
    first & last
}

// The same where at most one byte is held.
fn is_held_short(s: Cable) -> bool
    ensures { s.count ≤ 1 → result ≡ sound_held s }
{
    let held = s.held;
    let last = (held[3] == 0) & ((held[4] == 0) & (held[5] == 0));
    is_slot(s.count, 0, held[0]) & ((held[1] == 0) & ((held[2] == 0) & last))
}

// Whether the numbers of a cable fit together.
#[inline(always)]
pub fn is_sound(s: Cable) -> bool
    ensures { result ≡ sound s }
{
    let n = s.count;
    if s.status == EXCLUSIVE {
        let begins = (s.begun <= 1) & (s.begun <= n);
        return ((s.running == 0) & ((n <= SIX) & begins)) & is_held(s);
    }
    let runs = (s.running == 0) | is_voice(s.running);
    let none = (s.status == 0) & ((n == 0) & (s.begun == 0));
    let known = (0x80 <= s.status) & (s.status < 0xF4);
    let serves = (s.running == 0) | (s.running == s.status);
    let waits = (n < needed(s.status)) & ((s.begun == 0) & serves);
    runs & ((none | (known & waits)) & is_held_short(s))
}
