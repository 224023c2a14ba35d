// The run up into lines: a line for each packet in place of the words that it sends.
ghost use Rattle.std.specs.Prelude.{◌≡◌, ◌<◌, length};
ghost use Rattle.ground.specs.Store.{at_start};
ghost use Rattle.ump.specs.Word.{place_of};
ghost use Rattle.stream.specs.Report.{placing, reported};
ghost use Rattle.channel.specs.Record.{whole_table};
ghost use Rattle.voice.specs.Packet.{packet_up};
ghost use Rattle.voice.specs.Turn.{next, output_of};
ghost use Rattle.table.specs.Table.{table_after};
ghost use Rattle.flow.specs.Listing.{line_up, record_turned, run_lines};
ghost use Rattle.flow.specs.Kept.{listing, listing-own};

use crate::{AfterAndReport, Table};
use channel::Record;
use effect::effected;
use screen::open_rule;
use stream::{Calls, Done, NO_ROOM, SENT, report, report_place, run_calls};

// Where a packet's record stands, by its first word.
fn record_place(w: u32) -> usize
    ensures place { result ≡ place_of w }
    ensures inside { result < whole_table }
{
    ump::record_number(ump::group_of(w), ump::channel_of(w))
}

// A call up, told of a text that is then written so far.
fn told(turned: AfterAndReport<Record>, written: usize) -> AfterAndReport<Record>
    ensures { result ≡ record {
      after = turned.after;
      done = placing turned.done.answer turned.done.place turned.done.read written;
    } }
{
    let done = turned.done;
    AfterAndReport {
        done: report_place(done.answer, done.place, done.read, written),
        ..turned
    }
}

// The call at the packet that is next, into four words, with the record that it leaves.
fn called(words: &[u32], past: Done, record: Record, four: &mut [u32]) -> AfterAndReport<Record>
    ensures turn { result ≡ record_turned past (next words.now past) four.old «record»
        (packet_up «record» (next words.now past)) }
    ensures output { four.new
        ≡ output_of past four.old (packet_up «record» (next words.now past)) }
{
    let turned = voice::up(words, past, record, false, four, open_rule());
    let memory = turned.after;
    let key = ump::data1(ump::word_at(words, past.read));
    let after = effected(record, turned.effect, memory, key);
    let done = turned.done;
    AfterAndReport { after, done }
}

// The packet that is next in the words, with its record, and its line after what was written so far.
fn list_one(words: &[u32], past: Done, record: Record, text: &mut [u8]) -> AfterAndReport<Record>
    ensures turn { result ≡ record_turned past (next words.now past) text.old «record»
        (line_up «record» (next words.now past)) }
    ensures text { text.new
        ≡ output_of past text.old (line_up «record» (next words.now past)) }
{
    let read = past.read;
    let to = past.written;
    let mut four = [0u32; 4];
    let turned = called(words, report(SENT, read, 0), record, &mut four);
    let done = turned.done;
    if done.read == read {
        return told(turned, to);
    }
    let n = done.written;
    let Some(end) = text::line(
        done.answer,
        done.read - read,
        done.place,
        &four[..n],
        text,
        to,
    ) else {
        let done = report(NO_ROOM, read, to);
        return AfterAndReport {
            after: record,
            done,
        };
    };
    told(turned, end)
}

// The table, as a run into lines changes it.
#[derive(Clone, Copy)]
pub(crate) struct Listing {
    table: Table,
}

impl Calls for Listing {
    type Written = u8;

    ghost numbers = { λ text. text };

    ghost step = { listing };

    fn call(&mut self, words: &[u32], past: Done, text: &mut [u8]) -> Done {
        let i = record_place(ump::word_at(words, past.read));
        let listed = list_one(words, past, self.table.records[i], text);
        self.table.records[i] = listed.after;
        listed.done
    }

    ghost own_packet = { listing-own };
}

// The lines of the packets, going up, until one stops the run or its line has no room.
pub fn list_some(table: Table, words: &[u32], text: &mut [u8]) -> AfterAndReport<Table>
    ensures report { result.done
        ≡ reported (run_lines (length text.old) table.records words.now) }
    ensures table { result.after.records
        ≡ table_after (run_lines (length text.old) table.records words.now) }
    ensures lines { text.new ≡ at_start
        (run_lines (length text.old) table.records words.now).sends text.old }
{
    let mut listing = Listing { table };
    let done = run_calls(&mut listing, words, text);
    AfterAndReport {
        after: listing.table,
        done,
    }
}
