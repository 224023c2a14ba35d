// A group given to a host, or to nobody, and its records emptied.
//
// No function has a `requires`, and each says what it does by a definition of specs/. `give` changes
// the owner list, and empties the records of the group.
#![tactic(auto)]

ghost use Rattle.std.specs.Prelude.{◌≡◌, length};
ghost use Rattle.handover.specs.Handover;

use channel::{RECORDS, Record};
use stream::{ANSWERED, NO_TABLE, OUT_OF_RANGE};
use ump::{Channel, Group};

// The most that a group may be, and the most that a host may be, where 0 is nobody.
const LAST_GROUP: u8 = 15;

const LAST_HOST: u8 = 2;

// Kept: an owner is a byte of the list that C lends, and a byte of it may be any number.
const NOBODY: u8 = 0;

// How many channels a group has.
const CHANNELS: usize = 16;

// Whose a number of the owner list is.
fn owner_of(n: u8) -> u8
    ensures { result ≡ Handover.owner_of n }
{
    if (n == 1) | (n == 2) { n } else { NOBODY }
}

// Whose a group is.
fn group_owner(owners: &[u8], group: u8) -> u8
    ensures { result ≡ Handover.group_owner owners.now group }
{
    owner_of(owners.get(group as usize).copied().unwrap_or(NOBODY))
}

// Kept: the answer is the number that C is handed, and no step here goes on from a refusal.
// The answer, with a table of n records.
#[tactic(auto, unfolding(crate::specs::Handover::give_answer))]
fn give_answer(owners: &[u8], n: usize, group: u8, host: u8) -> u32
    ensures { result ≡ Handover.give_answer owners.now n group host }
{
    let can = (group <= LAST_GROUP) & ((group as usize) < owners.len()) & (host <= LAST_HOST);
    if n != RECORDS {
        NO_TABLE
    } else if can {
        ANSWERED
    } else {
        OUT_OF_RANGE
    }
}

#[tactic(auto, unfolding(crate::specs::Handover::changes_hands))]
fn changes_hands(owners: &[u8], n: usize, group: u8, host: u8) -> bool
    ensures { result ≡ Handover.changes_hands owners.now n group host }
{
    let answer = give_answer(owners, n, group, host);
    let owner = group_owner(owners, group);
    (answer == ANSWERED) & (owner != host)
}

// So many records from a place on are emptied, those of them that there are.
pub fn empty_from(table: &mut [Record], from: usize, count: usize)
    ensures { table.new ≡ Handover.emptied table.old from count }
{
    let end = from + count.min(table.len().saturating_sub(from));
    for i in from..end {
        table[i] = Record::empty();
    }
}

// The owner list has the new host where the group changes hands, and only then are the group's records emptied.
pub fn give(owners: &mut [u8], table: &mut [Record], group: u8, host: u8) -> u32
    ensures answer { result ≡ Handover.give_answer owners.old (length table.old) group host }
    ensures owners { owners.new ≡ Handover.owners_after owners.old (length table.old) group host }
    ensures table { table.new ≡ Handover.table_given owners.old table.old group host }
{
    let answer = give_answer(owners, table.len(), group, host);
    if !changes_hands(owners, table.len(), group, host) {
        return answer;
    }
    owners[group as usize] = host;
    let first = ump::record_number(Group(group), Channel(0));
    // Lent the group's own records, so that how many turns the loop makes is known here.
    empty_from(&mut table[first..first + CHANNELS], 0, CHANNELS);
    answer
}
