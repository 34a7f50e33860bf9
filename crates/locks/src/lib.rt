// Locks: modes, holds and waiting calls, their conflict, the hierarchy as a step is lent it, and the conflict call for the C host.
#![tactic(auto)]

ghost use Rattle.std.specs.Prelude.{◌≡◌, Some, None, cond, not, ◌||◌, ltb, ◌*◌, ◌≤◌, [], length, take, replicate};
ghost use Rattle.std.specs.List.{list_any, list_all};
ghost use Rattle.lists.specs.Lists.{any_below};
ghost use Rattle.locks.specs.Locks.{compatible as going_together, conflict as conflicting, real_interval, is_mode, is_hold, mode_when, mode_numbered, mode_number, lock_numbered, conflict_call};
ghost use Rattle.naming.specs.Inner.{kept_names};
ghost use Rattle.locks.specs.Stages.{held, held_names, is_out, is_waiting, against_holder, against_waiter, of_lock, reads_only, adds_only};
ghost use Rattle.locks.specs.Lent.{lent, lent_in, spanned, cover_in, tables_short, interval_wrong, names_wrong, lock_on, cover_right, inside_lock, covers_names, in_named};
ghost use Rattle.locks.specs.Inner.{outside, lock_fits};

use hierarchy::EdgeTable;
use naming::Names;

// A visit is reading, writing or adding.
#[derive(Clone, Copy, PartialEq, Eq, Debug)]
pub enum Mode {
    Reading,
    Writing,
    Adding,
}

// A hold, or a waiting call: mode, cover, the cover's interval and the names. Its party is the place of its entry.
#[derive(Clone, Copy)]
pub struct Lock {
    pub mode: Mode,
    pub cover: u16,
    pub low: u16,
    pub high: u16,
    pub names: Names,
}

// A party is out, waiting or holding.
#[derive(Clone, Copy)]
pub enum Stage {
    Out,
    Waiting(Lock),
    Holding(Lock),
}

// The hierarchy as a step is lent it: n, low and high of each node in turn, and the edges.
#[derive(Clone, Copy)]
pub struct Lent<'a> {
    pub n: usize,
    pub intervals: &'a [u16],
    pub edges: EdgeTable<'a>,
}

// Whether two modes go together: both are reading, or both are adding.
pub fn compatible(a: Mode, b: Mode) -> bool
    ensures { result ≡ going_together a b }
{
    matches!(
        (a, b),
        (Mode::Reading, Mode::Reading) | (Mode::Adding, Mode::Adding)
    )
}

// Whether two holds conflict.
pub fn conflict(a: Lock, b: Lock) -> bool
    ensures { result ≡ conflicting a b }
{
    a.low <= b.high && b.low <= a.high && !compatible(a.mode, b.mode)
}

// Whether a lock conflicts with what a party at this stage holds.
pub fn against_holder(l: Lock, s: Stage) -> bool
    ensures { result ≡ against_holder l s }
{
    matches!(s, Stage::Holding(h) if conflict(h, l))
}

// Whether a lock conflicts with what a party at this stage waits for.
pub fn against_waiter(l: Lock, s: Stage) -> bool
    ensures { result ≡ against_waiter l s }
{
    matches!(s, Stage::Waiting(w) if conflict(w, l))
}

// Whether a party at this stage is out.
pub fn is_out(s: Stage) -> bool
    ensures { result ≡ is_out s }
{
    matches!(s, Stage::Out)
}

// Whether a party at this stage is waiting.
pub fn is_waiting(s: Stage) -> bool
    ensures { result ≡ is_waiting s }
{
    matches!(s, Stage::Waiting(_))
}

// Whether a party at this stage holds for reading.
pub fn reads_only(s: Stage) -> bool
    ensures { result ≡ reads_only s }
{
    matches!(s, Stage::Holding(l) if l.mode == Mode::Reading)
}

// Whether a party at this stage holds for adding.
pub fn adds_only(s: Stage) -> bool
    ensures { result ≡ adds_only s }
{
    matches!(s, Stage::Holding(l) if l.mode == Mode::Adding)
}

// Whether a lock's cover is below n and has the lock's interval.
fn lock_right(tables: &Lent<'_>, l: Lock) -> bool
    ensures { result ≡ cover_right (lent_in tables.now) l }
{
    let c = usize::from(l.cover);
    let i = covers::interval_at(tables.intervals, c);
    c < tables.n && i.low == l.low && i.high == l.high
}

// Whether a node's interval lies inside that of a lock.
fn inside_lock(tables: &Lent<'_>, node: usize, l: Lock) -> bool
    ensures { result ≡ inside_lock (lent_in tables.now) node l }
{
    let i = covers::interval_at(tables.intervals, node);
    l.low <= i.low && i.high <= l.high
}

// Whether the intervals of all these names lie inside that of a lock.
fn names_inside(tables: &Lent<'_>, names: &[u8], l: Lock) -> bool
    ensures { result ≡ list_all (λ name. inside_lock (lent_in tables.now) name l) names.now }
{
    names
        .iter()
        .all(|&name| inside_lock(tables, usize::from(name), l))
}

// Whether a lock's interval contains those of its names.
fn covers_names(tables: &Lent<'_>, l: Lock) -> bool
    ensures { result ≡ covers_names (lent_in tables.now) l }
{
    names_inside(tables, naming::listed(&l.names), l)
}

// Whether a lock's cover is right, its names are right, and the cover's interval contains theirs.
fn lock_fits(tables: &Lent<'_>, l: Lock) -> bool
    ensures { result ≡ lock_fits (lent_in tables.now) l }
{
    lock_right(tables, l) && naming::names_right(tables.n, l.names) && covers_names(tables, l)
}

// Whether what a party at this stage holds or waits for has a right cover, and right names inside it.
pub fn stage_right(tables: &Lent<'_>, s: Stage) -> bool
    ensures { result ≡ of_lock (lock_fits (lent_in tables.now)) s }
{
    match s {
        Stage::Out => true,
        Stage::Waiting(l) | Stage::Holding(l) => lock_fits(tables, l),
    }
}

// Whether the tables are shorter than n and the edge count say.
pub fn tables_short(tables: &Lent<'_>) -> bool
    ensures { result ≡ tables_short (lent_in tables.now) }
{
    tables.intervals.len() / 2 < tables.n || tables.edges.numbers.len() / 2 < tables.edges.count
}

// Whether an interval is not real or not inside another, that of node 0. All five tests are made, so that many are made at once.
fn interval_wrong(low: u16, high: u16, least: u16, most: u16) -> bool
    ensures { result ≡ outside low high least most }
{
    (low < 1) | (high < low) | (256 < high) | (low < least) | (most < high)
}

// Whether the interval of some node below n is wrong.
fn some_interval_wrong(tables: &Lent<'_>) -> bool
    requires { 2 * tables.now.n ≤ length tables.now.intervals.now }
    ensures { result ≡ any_below tables.now.n (interval_wrong (lent_in tables.now)) }
{
    let root = covers::interval_at(tables.intervals, 0);
    let mut wrong = false;
    for i in 0..tables.n {
        let low = tables.intervals[2 * i];
        let high = tables.intervals[2 * i + 1];
        wrong |= interval_wrong(low, high, root.low, root.high);
    }
    wrong
}

// Whether the interval of some node below n is wrong. A table that is too short has no interval for the last of them, and 0 is no low.
pub fn intervals_wrong(tables: &Lent<'_>) -> bool
    ensures { result ≡ any_below tables.now.n (interval_wrong (lent_in tables.now)) }
{
    tables.intervals.len() / 2 < tables.n || some_interval_wrong(tables)
}

// Whether one of the first names is not below n.
fn some_name_wrong(n: usize, names: &[u16], name_count: usize) -> bool
    ensures { result ≡ list_any (λ node. not (ltb node n)) (take name_count names.now) }
{
    names
        .iter()
        .take(name_count)
        .any(|&node| n <= usize::from(node))
}

// Whether the name count is not 1 to 8, or a name is not below n.
pub fn names_wrong(n: usize, names: &[u16], name_count: usize) -> bool
    ensures { result ≡ names_wrong n names.now name_count }
{
    match name_count {
        1..=8 => some_name_wrong(n, names, name_count),
        _ => true,
    }
}

// The lock that a call asks for: on its cover, with the cover's interval and not the call's, and with the names.
// Kept: n is a u16 and no field of the lent tables, since the promise has no condition and a place past 65535 fits no lock.
#[tactic(auto, using(covers::proofs::Covers::closest_least))]
pub fn lock_called(n: u16, intervals: &[u16], mode: Mode, names: &[u16]) -> Lock
    ensures { result ≡ lock_on (spanned n intervals.now) mode (cover_in (spanned n intervals.now) names.now) (kept_names names.now) }
{
    let call = covers::call_interval(intervals, names);
    let cover = covers::closest(usize::from(n), intervals, call);
    let i = covers::interval_at(intervals, cover);
    Lock {
        mode,
        cover: cover as u16,
        low: i.low,
        high: i.high,
        names: naming::kept(names),
    }
}

// The names of what a party at this stage holds; one that does not hold has none.
fn held_names(s: Stage) -> Names
    ensures { result ≡ held_names s }
{
    match s {
        Stage::Out | Stage::Waiting(_) => naming::none(),
        Stage::Holding(l) => l.names,
    }
}

// Whether a node is in the reach of a name of what a party at this stage holds, among as many nodes as there are flags. The flags are 0 afterwards.
pub fn in_named(edges: &EdgeTable<'_>, node: usize, s: Stage, flags: &mut [u8]) -> bool
    ensures value { result ≡ in_named (lent (length flags.old) [] edges.now.numbers.now edges.now.count) node s }
    ensures flags_after { flags.new ≡ replicate (length flags.old) 0 }
{
    let names = held_names(s);
    hierarchy::in_reach(edges, naming::listed(&names), node, flags)
}

// Reading where the first is so, else writing where the second is, else adding: of a number m that is a mode, `m == 1` and `m == 2` tell.
// Kept: total by its public contract, for any byte, where `mode_of` has none.
pub fn mode_when(reading: bool, writing: bool) -> Mode
    ensures { result ≡ mode_when reading writing }
{
    if reading {
        Mode::Reading
    } else if writing {
        Mode::Writing
    } else {
        Mode::Adding
    }
}

// The mode of a number, if it is one.
fn mode_of(m: u32) -> Option<Mode>
    ensures { result ≡ cond (is_mode m) (Some (mode_numbered m)) None }
{
    match m {
        1 => Some(Mode::Reading),
        2 => Some(Mode::Writing),
        3 => Some(Mode::Adding),
        _ => None,
    }
}

// Whether an interval lies in 1 to 256, low at most high.
fn real_interval(low: u32, high: u32) -> bool
    ensures { result ≡ real_interval low high }
{
    1 <= low && low <= high && high <= 256
}

// The hold of mode, low and high, if they are those of one.
fn lock_numbered(m: u32, low: u32, high: u32) -> Option<Lock>
    ensures { result ≡ cond (is_hold m low high) (Some (lock_numbered m low high)) None }
{
    let mode = mode_of(m)?;
    if !real_interval(low, high) {
        return None;
    }
    Some(Lock {
        mode,
        cover: 0,
        low: low as u16,
        high: high as u16,
        names: naming::none(),
    })
}

// What the C host is answered where one of the two is no hold.
const NO_HOLD: u32 = 10;

// Whether two holds conflict, for the C host: 0 no, 1 yes, 10 for what is no hold.
pub fn hold_conflict(mode: u32, low: u32, high: u32, mode2: u32, low2: u32, high2: u32) -> u32
    ensures { result ≡ conflict_call mode low high mode2 low2 high2 }
{
    match (
        lock_numbered(mode, low, high),
        lock_numbered(mode2, low2, high2),
    ) {
        (Some(a), Some(b)) => u32::from(conflict(a, b)),
        _ => NO_HOLD,
    }
}

// Whether a lock conflicts with what a party at this stage holds or waits for.
pub fn stands_against(l: Lock, here: Stage) -> bool
    ensures { result ≡ against_holder l here || against_waiter l here }
{
    against_holder(l, here) || against_waiter(l, here)
}

// What a waiter waits for, held.
pub fn hold(s: Stage) -> Stage
    ensures { result ≡ held s }
{
    match s {
        Stage::Out => Stage::Out,
        Stage::Waiting(l) | Stage::Holding(l) => Stage::Holding(l),
    }
}

// The number of a mode.
pub fn mode_number(m: Mode) -> u16
    ensures { result ≡ mode_number m }
{
    match m {
        Mode::Reading => 1,
        Mode::Writing => 2,
        Mode::Adding => 3,
    }
}
