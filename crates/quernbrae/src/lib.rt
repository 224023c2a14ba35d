// What a caller uses: one call and a run, up and down, over the table that the caller lends, what may
// be asked of the table, its coarse marks, all that for two hosts that share it, one channel's packets
// alone, whole messages out of packets, and maker identities, under the names that C and Rust link
// (include/quernbrae.h). The five-pin sockets and whole messages stand in files of their own.
//
// No function that is exported has a `requires`. Each contract gives the report, the table and the output at exit by
// the definitions of the crates below, on every input.
#![tactic(auto)]

mod messages;
mod sockets;

ghost use Rattle.std.specs.Prelude.{◌≡◌, length, true};
ghost use Rattle.ground.specs.Store.{at_start};
ghost use Rattle.ump.specs.Packet.{packet};
ghost use Rattle.stream.specs.Report.{reported, reported_call};
ghost use Rattle.screen.specs.Screen.{beginners_rule};
ghost use Rattle.channel.specs.Record.{empty};
ghost use Rattle.question.specs.Question.{keys_asked};
ghost use Rattle.pupil.specs.Only.{only};
ghost use Rattle.mark.specs.Mark.{mark_answer, named, table_marked};
ghost use Rattle.hosts.specs.Hosts.{host_keys_asked, host_mark_answer, host_one_down, host_one_up, host_run_down, host_run_up};
ghost use Rattle.hosts.specs.Hosts.{host_table_marked};
ghost use Rattle.handover.specs.Handover.{give_answer, owners_after, table_given};
ghost use Rattle.identity.specs.Identity.{identity_from, maker_from, new_of, old_of};
ghost use Rattle.lesson.specs.Lesson.{lesson, lesson_report};
ghost use Rattle.voice.specs.Packet.{one_down, run_down};
ghost use Rattle.table.specs.Table.{beginners_one_up, beginners_run_up, one_up, run_up, table_after};

use channel::Record;
use hosts::Host;
use identity::{Identity, Maker};
pub use messages::{quernbrae_chain_closed, quernbrae_collect, quernbrae_run_collect};
use question::KeysDown;
use screen::{Rule, open_rule};
pub use sockets::{
    quernbrae_cable_idle, quernbrae_export, quernbrae_import, quernbrae_run_export,
    quernbrae_run_import,
};
use stream::Done;
use table::{Job, treat};

// An empty record.
#[unsafe(no_mangle)]
pub extern "C" fn quernbrae_empty() -> Record
    ensures { result ≡ empty }
{
    Record::empty()
}

// Kept: the C interface has a name for each call, for its run, for those of the beginners' room and for those of a host,
// so each of them stands here by itself, down to the last mark.
// One call up: the packet at the start of the words.
#[unsafe(no_mangle)]
pub extern "C" fn quernbrae_up(words: &[u32], table: &mut [Record], out: &mut [u32]) -> Done
    ensures report { result ≡ reported_call (packet words.now)
        (one_up (length out.old) table.old words.now) }
    ensures table { table.new
        ≡ table_after (one_up (length out.old) table.old words.now) }
    ensures output { out.new ≡ at_start
        (one_up (length out.old) table.old words.now).sends out.old }
{
    treat(words, Job::call(open_rule()), table, out)
}

// A run up: every packet of the words, until one stops it.
#[unsafe(no_mangle)]
pub extern "C" fn quernbrae_run_up(words: &[u32], table: &mut [Record], out: &mut [u32]) -> Done
    ensures report { result
        ≡ reported (run_up (length out.old) table.old words.now) }
    ensures table { table.new
        ≡ table_after (run_up (length out.old) table.old words.now) }
    ensures output { out.new ≡ at_start
        (run_up (length out.old) table.old words.now).sends out.old }
{
    treat(words, table::run_told(words.len(), table), table, out)
}

// The rule of the beginners' room.
fn beginners_rule() -> Rule
    ensures { result ≡ beginners_rule }
{
    Rule {
        beginners: true,
        ..open_rule()
    }
}

// One call up in the beginners' room, where only some packets may pass.
#[unsafe(no_mangle)]
pub extern "C" fn quernbrae_beginners_up(
    words: &[u32],
    table: &mut [Record],
    out: &mut [u32],
) -> Done
    ensures report { result ≡ reported_call (packet words.now)
        (beginners_one_up (length out.old) table.old words.now) }
    ensures table { table.new
        ≡ table_after (beginners_one_up (length out.old) table.old words.now) }
    ensures output { out.new ≡ at_start
        (beginners_one_up (length out.old) table.old words.now).sends
        out.old }
{
    treat(words, Job::call(beginners_rule()), table, out)
}

// A run up in the beginners' room.
#[unsafe(no_mangle)]
pub extern "C" fn quernbrae_beginners_run_up(
    words: &[u32],
    table: &mut [Record],
    out: &mut [u32],
) -> Done
    ensures report { result
        ≡ reported (beginners_run_up (length out.old) table.old words.now) }
    ensures table { table.new
        ≡ table_after (beginners_run_up (length out.old) table.old words.now) }
    ensures output { out.new ≡ at_start
        (beginners_run_up (length out.old) table.old words.now).sends
        out.old }
{
    treat(words, Job::run(beginners_rule()), table, out)
}

// A lesson: a run up over a table of its own, empty but for the marks of `coarse`.
#[unsafe(no_mangle)]
pub extern "C" fn quernbrae_lesson(words: &[u32], coarse: &[u16], out: &mut [u32]) -> Done
    ensures report { result
        ≡ lesson_report (lesson (length out.old) coarse.now words.now) }
    ensures output { out.new ≡ at_start
        (lesson (length out.old) coarse.now words.now).sends out.old }
{
    lesson::run(words, coarse, out)
}

// One call up for a host, which is refused whatever is of a group that it does not own.
#[unsafe(no_mangle)]
pub extern "C" fn quernbrae_host_up(
    host: u8,
    owners: &[u8],
    words: &[u32],
    table: &mut [Record],
    out: &mut [u32],
) -> Done
    ensures report { result ≡ reported_call (packet words.now) (host_one_up host owners.now
        (length out.old) table.old words.now) }
    ensures table { table.new ≡ table_after (host_one_up host owners.now
        (length out.old) table.old words.now) }
    ensures output { out.new ≡ at_start (host_one_up host owners.now
        (length out.old) table.old words.now).sends out.old }
{
    treat(
        words,
        Host {
            number: host,
            owners,
        }
        .job(true),
        table,
        out,
    )
}

// A run up for a host.
#[unsafe(no_mangle)]
pub extern "C" fn quernbrae_host_run_up(
    host: u8,
    owners: &[u8],
    words: &[u32],
    table: &mut [Record],
    out: &mut [u32],
) -> Done
    ensures report { result ≡ reported (host_run_up host owners.now
        (length out.old) table.old words.now) }
    ensures table { table.new ≡ table_after (host_run_up host owners.now
        (length out.old) table.old words.now) }
    ensures output { out.new ≡ at_start (host_run_up host owners.now
        (length out.old) table.old words.now).sends out.old }
{
    treat(
        words,
        Host {
            number: host,
            owners,
        }
        .job(false),
        table,
        out,
    )
}

// One call down: the packet at the start of the words.
#[unsafe(no_mangle)]
pub extern "C" fn quernbrae_down(words: &[u32], out: &mut [u32]) -> Done
    ensures report { result ≡ reported_call (packet words.now)
        (one_down (length out.old) words.now) }
    ensures output { out.new
        ≡ at_start (one_down (length out.old) words.now).sends out.old }
{
    voice::down(words, stream::report(stream::SENT, 0, 0), out, open_rule())
}

// A run down: every packet of the words, until one stops it.
#[unsafe(no_mangle)]
pub extern "C" fn quernbrae_run_down(words: &[u32], out: &mut [u32]) -> Done
    ensures report { result ≡ reported (run_down (length out.old) words.now) }
    ensures output { out.new
        ≡ at_start (run_down (length out.old) words.now).sends out.old }
{
    voice::run_down(words, out, open_rule())
}

// One call down for a host.
#[unsafe(no_mangle)]
pub extern "C" fn quernbrae_host_down(
    host: u8,
    owners: &[u8],
    words: &[u32],
    out: &mut [u32],
) -> Done
    ensures report { result ≡ reported_call (packet words.now)
        (host_one_down host owners.now (length out.old) words.now) }
    ensures output { out.new ≡ at_start
        (host_one_down host owners.now (length out.old) words.now).sends
        out.old }
{
    voice::down(
        words,
        stream::report(stream::SENT, 0, 0),
        out,
        Host {
            number: host,
            owners,
        }
        .rule(),
    )
}

// A run down for a host.
#[unsafe(no_mangle)]
pub extern "C" fn quernbrae_host_run_down(
    host: u8,
    owners: &[u8],
    words: &[u32],
    out: &mut [u32],
) -> Done
    ensures report { result ≡ reported
        (host_run_down host owners.now (length out.old) words.now) }
    ensures output { out.new ≡ at_start
        (host_run_down host owners.now (length out.old) words.now).sends
        out.old }
{
    voice::run_down(
        words,
        out,
        Host {
            number: host,
            owners,
        }
        .rule(),
    )
}

// One channel's packets: the MIDI 1.0 voice messages of a group and channel, unchanged and in order.
#[unsafe(no_mangle)]
pub extern "C" fn quernbrae_only(words: &[u32], group: u8, channel: u8, out: &mut [u32]) -> Done
    ensures report { result ≡ reported (only group channel (length out.old) words.now) }
    ensures output { out.new ≡ at_start
        (only group channel (length out.old) words.now).sends out.old }
{
    pupil::only(words, group, channel, out)
}

// How many keys are down on a channel of a group, and the lowest.
#[unsafe(no_mangle)]
pub extern "C" fn quernbrae_keys_down(table: &[Record], group: u8, channel: u8) -> KeysDown
    ensures { result ≡ keys_asked table.now group channel }
{
    let record = table::record_at(table, question::place_asked(group, channel));
    question::keys_told(table.len(), group, channel, record)
}

// The same for a host, of its own groups.
#[unsafe(no_mangle)]
pub extern "C" fn quernbrae_host_keys_down(
    host: u8,
    owners: &[u8],
    table: &[Record],
    group: u8,
    channel: u8,
) -> KeysDown
    ensures { result ≡ host_keys_asked host owners.now table.now group channel }
{
    let record = table::record_at(table, question::place_asked(group, channel));
    Host {
        number: host,
        owners,
    }
    .keys_told(table.len(), group, channel, record)
}

// The record that a group and channel name is marked, or refused where it is not sound.
fn mark_named(table: &mut [Record], group: u8, channel: u8, coarse: u8) -> u32
    requires { named (length table.old) group channel ≡ true }
    ensures told { result ≡ mark_answer table.old group channel }
    ensures table { table.new ≡ table_marked table.old group channel coarse }
{
    let i = question::place_asked(group, channel);
    match mark::marking(table[i], coarse) {
        Some(after) => {
            table[i] = after;
            stream::ANSWERED
        }
        None => stream::NOT_SOUND,
    }
}

// Any number but 0 marks a channel of a group coarse, and 0 takes the mark off.
#[unsafe(no_mangle)]
pub extern "C" fn quernbrae_mark_coarse(
    table: &mut [Record],
    group: u8,
    channel: u8,
    coarse: u8,
) -> u32
    ensures answer { result ≡ mark_answer table.old group channel }
    ensures table { table.new ≡ table_marked table.old group channel coarse }
{
    let n = table.len();
    if mark::is_named(n, group, channel) {
        mark_named(table, group, channel, coarse)
    } else {
        mark::unnamed(n)
    }
}

// The same for a host, of its own groups.
#[unsafe(no_mangle)]
pub extern "C" fn quernbrae_host_mark_coarse(
    host: u8,
    owners: &[u8],
    table: &mut [Record],
    group: u8,
    channel: u8,
    coarse: u8,
) -> u32
    ensures answer { result ≡ host_mark_answer host owners.now table.old group channel }
    ensures table { table.new
        ≡ host_table_marked host owners.now table.old group channel coarse }
{
    let n = table.len();
    let host = Host {
        number: host,
        owners,
    };
    if host.may_mark(n, group, channel) {
        mark_named(table, group, channel, coarse)
    } else {
        hosts::unmarked(n, group, channel)
    }
}

// A group is given to host 1 or 2, or to nobody by 0. Where it changes hands its records are emptied.
#[unsafe(no_mangle)]
pub extern "C" fn quernbrae_give_group(
    owners: &mut [u8],
    table: &mut [Record],
    group: u8,
    host: u8,
) -> u32
    ensures answer { result ≡ give_answer owners.old (length table.old) group host }
    ensures owners { owners.new
        ≡ owners_after owners.old (length table.old) group host }
    ensures table { table.new
        ≡ table_given owners.old table.old group host }
{
    handover::give(owners, table, group, host)
}

// The form of 16 bits of a maker identity, from its bytes.
#[unsafe(no_mangle)]
pub extern "C" fn quernbrae_identity_new(old: &[u8]) -> Identity
    ensures { result ≡ identity_from (new_of old.now) }
{
    identity::identity_new(old)
}

// The bytes of a maker identity, from its form of 16 bits.
#[unsafe(no_mangle)]
pub extern "C" fn quernbrae_identity_old(number: u16) -> Maker
    ensures { result ≡ maker_from (old_of number) }
{
    identity::identity_old(number)
}
