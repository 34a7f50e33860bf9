// The pass over the waiters: a party leaves, and the others are taken once in arrival order.
#![tactic(auto)]

ghost use Rattle.std.specs.Prelude.{◌≡◌, set};
ghost use Rattle.arrivals.specs.Arrivals.{list_of};
ghost use Rattle.parties.specs.Parties.{entry_of, meets_holder, meets_waiter};
ghost use Rattle.sweeps.specs.Sweeps.{sweep_of, leaving_of, Sweeps};
ghost use Rattle.sweeps.specs.Inner.{may_go};

use arrivals::{Listed, PARTIES};
use locks::{Lock, Stage};
use parties::Entry;

// What a pass over the waiters leaves: the entries, those that stay waiting, and those granted, each in order.
#[derive(Clone, Copy)]
pub struct Swept {
    pub entries: [Entry; PARTIES],
    pub stay: Listed,
    pub granted: Listed,
}

// Whether a lock conflicts with a holder.
fn meets_holder(entries: &[Entry; PARTIES], l: Lock) -> bool
    ensures { result ≡ meets_holder entries.now l }
{
    entries
        .iter()
        .any(|entry| locks::against_holder(l, entry.stage))
}

// Whether a lock conflicts with a waiter of an arrival list.
fn meets_waiter(entries: &[Entry; PARTIES], list: &Listed, l: Lock) -> bool
    ensures { result ≡ meets_waiter entries.now (list_of list.now) l }
{
    list.places[..list.count.min(PARTIES)].iter().any(|party| locks::against_waiter(
        l,
        parties::stage(entries, usize::from(*party)),
    ))
}

// Whether a party at this stage waits and is granted, with those of an arrival list still waiting before it.
fn may_go(entries: &[Entry; PARTIES], stay: &Listed, s: Stage) -> bool
    ensures { result ≡ may_go entries.now (list_of stay.now) s }
{
    match s {
        Stage::Waiting(l) => !meets_holder(entries, l) && !meets_waiter(entries, stay, l),
        Stage::Out | Stage::Holding(_) => false,
    }
}

// Takes the waiters of an arrival list in order: each that may go is granted what it waits for, and the others stay waiting.
fn sweep(entries: [Entry; PARTIES], list: Listed) -> Swept
    ensures { Sweeps (sweep_of entries (list_of list)) result }
{
    let mut next = entries;
    let mut stay = Listed::none();
    let mut granted = Listed::none();
    for &party in &list.places[..list.count.min(PARTIES)] {
        let at = usize::from(party);
        let s = parties::stage(&next, at);
        if may_go(&next, &stay, s) {
            next[at] = Entry {
                stage: locks::hold(s),
            };
            granted.push(party);
        } else {
            stay.push(party);
        }
    }
    Swept {
        entries: next,
        stay,
        granted,
    }
}

// The entries with a party out; a party over 31 changes nothing.
fn with_out(entries: [Entry; PARTIES], party: usize) -> [Entry; PARTIES]
    ensures { result ≡ set entries party (entry_of Stage.Out) }
{
    let mut next = entries;
    if party < PARTIES {
        next[party] = Entry { stage: Stage::Out };
    }
    next
}

// A party gives up its hold or its call; the others in the arrival list are then taken in order.
pub fn leaving(entries: [Entry; PARTIES], list: Listed, party: usize) -> Swept
    ensures { Sweeps (leaving_of entries (list_of list) party) result }
{
    let others = list.without(party);
    let rest = with_out(entries, party);
    sweep(rest, others)
}
