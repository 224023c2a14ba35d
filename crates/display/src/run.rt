// A run: every packet of some words is heard, and one that changes what is shown has a line.
ghost use Rattle.std.specs.Prelude.{◌≡◌, ◌≤◌, length};
ghost use Rattle.ground.specs.Store.{at_start, written};
ghost use Rattle.stream.specs.Call.{sent_of};
ghost use Rattle.stream.specs.Report.{reported};
ghost use Rattle.display.specs.Run.{run_shown, show_at, turned};
ghost use Rattle.display.specs.Showing.{showing, showing-own};

use crate::{DeskAndReport, is_same_picture, line};
use screen::screen;
use stream::{Calls, Done, NO_ROOM, SENT, report, report_place, run_calls};
use tuning::{Desk, hear};
use ump::packet_at;

// The packet that is next in the words, after what was read and written so far.
fn show_next(words: &[u32], past: Done, desk: Desk, units: u32, text: &mut [u8]) -> DeskAndReport
    ensures turn { result ≡ turned past desk words.now
        (show_at units desk words.now past text.old) }
    ensures text { text.new ≡ written past.written
        (sent_of (show_at units desk words.now past text.old)) text.old }
{
    let read = past.read;
    let to = past.written;
    let packet = packet_at(words, read);
    let next = read + packet.len();
    match screen(None, packet) {
        Err(refusal) => {
            let done = report_place(refusal.answer, refusal.place, next, to);
            DeskAndReport { desk, done }
        }
        Ok(()) => {
            let after = hear(desk, packet);
            if is_same_picture(desk, after, units) {
                let done = report(SENT, next, to);
                return DeskAndReport { desk: after, done };
            }
            let Some(end) = line(after, units, text, to) else {
                let done = report(NO_ROOM, read, to);
                return DeskAndReport { desk, done };
            };
            let done = report(SENT, next, end);
            DeskAndReport { desk: after, done }
        }
    }
}

// What a run of the desk keeps: the desk, and the units of its range.
#[derive(Clone, Copy)]
pub(crate) struct Showing {
    desk: Desk,
    units: u32,
}

impl Calls for Showing {
    type Written = u8;

    ghost numbers = { λ text. text };

    ghost step = { showing };

    fn call(&mut self, words: &[u32], past: Done, text: &mut [u8]) -> Done {
        let shown = show_next(words, past, self.desk, self.units, text);
        self.desk = shown.desk;
        shown.done
    }

    ghost own_packet = { showing-own };
}

// The packets of the words, until the line of one has no room or the words end.
pub fn show_some(desk: Desk, units: u32, words: &[u32], text: &mut [u8]) -> DeskAndReport
    ensures report { result.done
        ≡ reported (run_shown units (length text.old) desk words.now) }
    ensures desk { result.desk ≡ (run_shown units (length text.old) desk words.now).left.1 }
    ensures lines { text.new ≡ at_start
        (run_shown units (length text.old) desk words.now).sends text.old }
    ensures read { result.done.read ≤ length words.now }
{
    let mut showing = Showing { desk, units };
    let done = run_calls(&mut showing, words, text);
    DeskAndReport {
        desk: showing.desk,
        done,
    }
}
