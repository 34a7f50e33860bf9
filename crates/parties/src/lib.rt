// Parties: their entries, who is free, and the test of a sound desk.
#![tactic(auto)]

ghost use Rattle.std.specs.Prelude.{◌≡◌, [], ◌∷◌, ◌++◌, true, false, ◌&&◌, ◌||◌, not, ◌≤◌, ◌<◌, ◌+◌};
ghost use Rattle.lists.specs.Lists.{any_below};
ghost use Rattle.locks.specs.Lent.{lent_in, interval_wrong};
ghost use Rattle.parties.specs.Parties.{stage_in, is_free, someone_in};
ghost use Rattle.parties.specs.Inner.{locks_in, meets, entry_right, HoldsOf, Gathered};
ghost use Rattle.parties.specs.Sound.{lists_parties, lists_once, holders_apart, waiters_held_up, sound_parties};

use arrivals::{Listed, PARTIES};
use locks::{Lent, Lock, Mode, Stage};

// Places for the locks of all holders and, behind them, of all waiters.
const STANDING: usize = 2 * PARTIES;

// The entry of a party.
#[derive(Clone, Copy)]
pub struct Entry {
    pub stage: Stage,
}

// Locks that stand at the desk, and their count: holds, and calls behind them.
// Kept: an array with a count beside it, since memory is fixed and there is no heap.
#[derive(Clone, Copy)]
struct Standing {
    locks: [Lock; STANDING],
    count: usize,
}

impl Standing {
    // No lock stands.
    fn none() -> Standing
        ensures { result.count ≡ 0 }
    {
        let filler = Lock {
            mode: Mode::Reading,
            cover: 0,
            low: 0,
            high: 0,
            names: naming::none(),
        };
        Standing {
            locks: [filler; STANDING],
            count: 0,
        }
    }

    // Whether a lock conflicts with one of those that stand.
    fn meets(&self, l: Lock) -> bool
        requires { self.now.count ≤ 64 }
        ensures { result ≡ meets (locks_in self.now) l }
    {
        self.locks[..self.count]
            .iter()
            .any(|here| locks::conflict(*here, l))
    }

    // One lock more stands.
    fn push(&mut self, l: Lock)
        requires { self.old.count < 64 }
        ensures { (self.new.count ≡ self.old.count + 1) × (locks_in self.new ≡ locks_in self.old ++ (l ∷ [])) }
    {
        self.locks[self.count] = l;
        self.count += 1;
    }
}

// The stage of a party; a party over 31 counts as out.
pub fn stage(entries: &[Entry], party: usize) -> Stage
    ensures { result ≡ stage_in entries.now party }
{
    entries.get(party).map_or(Stage::Out, |entry| entry.stage)
}

// Whether some party holds or waits.
pub fn someone_in(entries: [Entry; PARTIES]) -> bool
    ensures { result ≡ someone_in entries }
{
    entries.iter().any(|entry| !locks::is_out(entry.stage))
}

// Whether a lock conflicts with no holder and no waiter.
pub fn is_free(entries: [Entry; PARTIES], l: Lock) -> bool
    ensures { result ≡ is_free entries l }
{
    !entries
        .iter()
        .any(|entry| locks::stands_against(l, entry.stage))
}

// Whether an arrival list is within its places and lists only parties from 0 to 31, each at most once.
fn lists_right(list: &Listed) -> bool
    ensures { result ≡ lists_parties list.now.places list.now.count && lists_once list.now.places list.now.count }
{
    list.count <= PARTIES
        && arrivals::all_parties(&list.places, list.count)
        && arrivals::lists_once(&list.places, list.count)
}

// Whether a party at this stage is listed if it waits, and what it holds or waits for has a right cover and right names.
fn entry_right(tables: &Lent<'_>, list: &Listed, party: usize, s: Stage) -> bool
    ensures { result ≡ entry_right (lent_in tables.now) list.now party s }
{
    (!locks::is_waiting(s) || arrivals::is_listed(&list.places, list.count, party))
        && locks::stage_right(tables, s)
}

// The holds of the holders, from one pass over the entries; none where one that waits is not listed, a cover or names are not right, or two holds conflict.
fn gather(tables: &Lent<'_>, entries: &[Entry; PARTIES], list: &Listed) -> Option<Standing>
    ensures { Gathered (lent_in tables.now) entries.now list.now result }
{
    let mut standing = Standing::none();
    for (party, entry) in entries.iter().enumerate() {
        if !entry_right(tables, list, party, entry.stage) {
            return None;
        }
        if let Stage::Holding(l) = entry.stage {
            if standing.meets(l) {
                return None;
            }
            standing.push(l);
        }
    }
    Some(standing)
}

// Whether each waiter conflicts with a holder or an earlier waiter; the holds of the holders are given.
fn waiters_held_up(entries: &[Entry; PARTIES], list: &Listed, holds: Standing) -> bool
    requires { (list.now.count ≤ 32) × HoldsOf entries.now holds }
    ensures { result ≡ waiters_held_up entries.now list.now.places list.now.count }
{
    let mut standing = holds;
    for i in 0..list.count {
        let Stage::Waiting(l) = stage(entries, arrivals::party_at(&list.places, i)) else {
            return false;
        };
        if !standing.meets(l) {
            return false;
        }
        standing.push(l);
    }
    true
}

// Whether the desk of these entries and this arrival list is sound, over intervals that are not wrong. A right cover has a real interval then,
// and who is held up waits: these two clauses need no pass.
fn is_sound(tables: &Lent<'_>, entries: &[Entry; PARTIES], list: &Listed) -> bool
    requires { any_below tables.now.n (interval_wrong (lent_in tables.now)) ≡ false }
    ensures { result ≡ sound_parties (lent_in tables.now) entries.now list.now.places list.now.count }
{
    if !lists_right(list) {
        return false;
    }
    match gather(tables, entries, list) {
        Some(holds) => waiters_held_up(entries, list, holds),
        None => false,
    }
}

// Refusal 10: whether an interval of the lent table is wrong, or the desk of these entries and this arrival list is not sound.
pub fn state_wrong(tables: &Lent<'_>, entries: [Entry; PARTIES], list: Listed) -> bool
    ensures { result ≡ any_below tables.now.n (interval_wrong (lent_in tables.now)) || not (sound_parties (lent_in tables.now) entries list.places list.count) }
{
    locks::intervals_wrong(tables) || !is_sound(tables, &entries, &list)
}
