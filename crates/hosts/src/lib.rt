// Two hosts that share a box: each of the sixteen groups belongs to host 1, to host 2 or to nobody, and
// a host's calls are fenced in by its own groups.
//
// Every function is total, and says what it answers by a definition of specs/. An owner list may have
// any length and any numbers, and a host any number.
#![tactic(auto)]

ghost use Rattle.std.specs.Prelude.{◌≡◌, ◌<◌};
ghost use Rattle.handover.specs.Handover.{is_host};
ghost use Rattle.hosts.specs.Hosts;

use channel::Record;
use mark::{is_named, unnamed};
use question::{KeysDown, keys_told, showing_none};
use screen::Rule;
use stream::NOT_YOURS;
use table::Job;

// How many groups there are.
const GROUPS: u8 = 16;

// The number of the owner list where a group is no host's.
const NOBODY: u8 = 0;

// Kept: the same test stands in handover inside `owner_of`, and to share it would take a public function more.
fn is_host(host: u8) -> bool
    ensures { result ≡ is_host host }
{
    (host == 1) | (host == 2)
}

// The groups with the bit of one more, where it is the host's.
fn with_group(groups: u32, group: u8, mine: bool) -> u32
    requires { group < 16 }
    ensures { result ≡ Hosts.with_group groups group mine }
{
    if mine {
        groups | (1u32 << (group as u32))
    } else {
        groups
    }
}

// A host by its number, and the list that has a number for each group: that of the host that owns it.
#[derive(Clone, Copy)]
pub struct Host<'a> {
    pub number: u8,
    pub owners: &'a [u8],
}

impl<'a> Host<'a> {
    // Whether it owns a group. One past the end of the list is nobody's.
    pub fn owns(self, group: u8) -> bool
        ensures { result ≡ Hosts.owns self.entry.number self.entry.owners.now group }
    {
        let owner = self.owners.get(group as usize).copied().unwrap_or(NOBODY);
        is_host(self.number) & (owner == self.number)
    }

    // The fence around its groups.
    pub fn rule(self) -> Rule
        ensures { result ≡ Hosts.host_rule self.entry.number self.entry.owners.now }
    {
        let mut groups: u32 = 0;
        for group in 0..GROUPS {
            groups = with_group(groups, group, self.owns(group));
        }
        Rule {
            beginners: false,
            fence: Some(groups),
        }
    }

    // What the loop is told for it: one call or a run, inside that fence.
    pub fn job(self, once: bool) -> Job
        ensures { result ≡ Hosts.host_job self.entry.number self.entry.owners.now once }
    {
        Job {
            once,
            known: false,
            rule: self.rule(),
        }
    }

    // What it is told of a record, in a table of n.
    #[tactic(auto, unfolding(crate::specs::Hosts::host_keys_told))]
    pub fn keys_told(self, n: usize, group: u8, channel: u8, record: Record) -> KeysDown
        ensures { result
            ≡ Hosts.host_keys_told self.entry.number self.entry.owners.now n group channel «record» }
    {
        if is_named(n, group, channel) & !self.owns(group) {
            showing_none(NOT_YOURS)
        } else {
            keys_told(n, group, channel, record)
        }
    }

    // Whether it may mark a channel of a table of n records.
    pub fn may_mark(self, n: usize, group: u8, channel: u8) -> bool
        ensures { result ≡ Hosts.may_mark self.entry.number self.entry.owners.now n group channel }
    {
        is_named(n, group, channel) & self.owns(group)
    }
}

// The answer where a host may not mark it.
pub fn unmarked(n: usize, group: u8, channel: u8) -> u32
    ensures { result ≡ Hosts.unmarked n group channel }
{
    if is_named(n, group, channel) {
        NOT_YOURS
    } else {
        unnamed(n)
    }
}
