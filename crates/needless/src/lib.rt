// The report over a file (02, point 2): all waits, and the needless ones.
#![tactic(auto)]

ghost use Rattle.std.specs.Prelude.{◌≡◌, true, not, ◌*◌, ◌<◌, ◌≤◌, length, take, replicate};
ghost use Rattle.lists.specs.Lists.{every};
ghost use Rattle.hierarchy.specs.Hierarchy.{edges_in};
ghost use Rattle.blocks.specs.Record.{party_in, mode_in, names_in};
ghost use Rattle.locks.specs.Locks.{mode_numbered};
ghost use Rattle.locks.specs.Lent.{lent, lent_in};
ghost use Rattle.reach_sets.specs.Sets.{call_set};
ghost use Rattle.replay.specs.Replay.{record_list, is_record, step_records, values_in, start_of};
ghost use Rattle.needless.specs.Waits.{nothing_named, plus, waits_of_steps, waits_of};
ghost use Rattle.needless.specs.Inner.{here, mode_of, set_in_way, some_in_way, visits, waited, waits_if, called_after, Counts, Sets, Countable};

use arrivals::PARTIES;
use blocks::RECORD;
use desk::Desk;
use hierarchy::EdgeTable;
use locks::{Lent, Mode, Stage};
use parties::Entry;
use reach_sets::NodeSet;
use replay::Outcome;

// What the report gives: how many enters were answered waits, and how many of these waits were needless.
#[derive(Clone, Copy)]
pub struct Waits {
    pub all: usize,
    pub needless: usize,
}

// Between two records of a file: the desk, and the waits so far.
#[derive(Clone, Copy)]
struct Progress {
    desk: Desk,
    waits: Waits,
}

// No wait.
const NO_WAITS: Waits = Waits {
    all: 0,
    needless: 0,
};

// A WAIT. Whether a party at this stage holds or waits.
fn is_here(stage: Stage) -> bool
    ensures { result ≡ here stage }
{
    matches!(stage, Stage::Waiting(_) | Stage::Holding(_))
}

// Its mode; of one that is out, which is asked for none, writing.
fn mode_of(stage: Stage) -> Mode
    ensures { result ≡ mode_of stage }
{
    match stage {
        Stage::Out => Mode::Writing,
        Stage::Waiting(l) | Stage::Holding(l) => l.mode,
    }
}

// Whether a party at this stage stands in a newcomer's way, by the sets of both calls: a holder or waiter, other than a reader against a reader or one adding
// visit against another.
fn in_way(stage: Stage, theirs: NodeSet, mode: Mode, set: NodeSet) -> bool
    ensures { result ≡ set_in_way stage theirs mode set }
{
    let m = mode_of(stage);
    is_here(stage) & !locks::compatible(m, mode) & reach_sets::meets(theirs, set)
}

// Whether one of the 32 parties does, by the sets of their calls.
fn some_in_way(entries: [Entry; PARTIES], called: &[u64], mode: Mode, set: NodeSet) -> bool
    ensures { result ≡ some_in_way entries called.now mode set }
{
    (0..PARTIES).any(|party| {
        in_way(
            entries[party].stage,
            reach_sets::set_at(called, party),
            mode,
            set,
        )
    })
}

// The set of the call of an enter record: all that its names reach.
fn call_in(sets: &[u64], bytes: &[u8]) -> NodeSet
    ensures { result ≡ call_set sets.now (names_in bytes.now) }
{
    if bytes.len() < 4 {
        return reach_sets::none();
    }
    let count = replay::names_in(bytes);
    reach_sets::call_set(sets, &bytes[4..4 + count])
}

// Whether an answer makes a visit: granted or waits.
fn visited(outcome: Outcome) -> bool
    ensures { result ≡ visits outcome }
{
    matches!(outcome, Outcome::Granted(_) | Outcome::Waits)
}

// Whether an answer is waits.
fn is_wait(outcome: Outcome) -> bool
    ensures { result ≡ waited outcome }
{
    matches!(outcome, Outcome::Waits)
}

// The waits so far and those of a step, by its answer: a wait is judged on the desk and by the sets before the step.
fn tally(
    before: Waits,
    outcome: Outcome,
    desk: Desk,
    called: &[u64],
    sets: &[u64],
    bytes: &[u8],
) -> Waits
    requires { (before.all < 18446744073709551615) × (before.needless < 18446744073709551615) }
    ensures { result ≡ plus before (waits_if (waited outcome) (not (some_in_way desk.entries called.now (mode_numbered (mode_in bytes.now)) (call_set sets.now (names_in bytes.now))))) }
{
    if !is_wait(outcome) {
        return before;
    }
    let m = octets::byte(bytes, 2);
    let mode = locks::mode_when(m == 1, m == 2);
    let needful = some_in_way(desk.entries, called, mode, call_in(sets, bytes));
    Waits {
        all: before.all + 1,
        needless: before.needless + usize::from(!needful),
    }
}

// Keeps the set of a call that makes a visit.
fn keep_call(outcome: Outcome, sets: &[u64], bytes: &[u8], called: &mut [u64])
    ensures { called.new ≡ called_after (visits outcome) (party_in bytes.now) (call_set sets.now (names_in bytes.now)) called.old }
{
    if visited(outcome) {
        let party = usize::from(octets::byte(bytes, 1));
        reach_sets::put_set(called, party, call_in(sets, bytes));
    }
}

// THE FILE. One record: of a kind that is no step's, it changes nothing; any other is performed, and counted where it waits.
fn count_step(
    progress: Progress,
    tables: &Lent<'_>,
    sets: &[u64],
    bytes: &[u8],
    values: &mut [u64],
    called: &mut [u64],
) -> Progress
    requires bytes_value { is_record bytes.now ≡ true }
    requires all_bound { (progress.waits.all < 18446744073709551615) × (progress.waits.needless < 18446744073709551615) }
    ensures { Counts (lent_in tables.now) sets.now bytes.now progress values.old called.old result values.new called.new }
{
    if !blocks::step_kind(octets::byte(bytes, 0)) {
        return progress;
    }
    let desk = progress.desk;
    let step = replay::perform(desk, tables, bytes, values);
    let next = step.desk;
    let outcome = step.outcome;
    let waits = tally(progress.waits, outcome, desk, called, sets, bytes);
    keep_call(outcome, sets, bytes, called);
    Progress { desk: next, waits }
}

// All records, from a fresh desk on, over a built hierarchy and the sets of its reaches; nobody has called for anything yet.
fn count_steps(
    tables: &Lent<'_>,
    sets: &[u64],
    records: &[u8],
    values: &mut [u64],
    called: &mut [u64],
) -> Waits
    requires records_value { every is_record (record_list records.now) ≡ true }
    requires sets { Sets tables.now.n (edges_in tables.now.edges) sets.now }
    requires called_value { called.old ≡ replicate 128 0 }
    requires values_value { values.old ≡ values_in tables.now.n (record_list records.now) }
    ensures { result ≡ waits_of_steps (start_of (lent_in tables.now) (record_list records.now)) nothing_named (step_records (record_list records.now)) }
{
    let mut progress = Progress {
        desk: Desk::fresh(),
        waits: NO_WAITS,
    };
    for bytes in records.chunks_exact(RECORD) {
        progress = count_step(progress, tables, sets, bytes, values, called);
    }
    progress.waits
}

// All records, from a fresh desk and the values of the records on.
fn count_records(
    tables: &Lent<'_>,
    sets: &[u64],
    records: &[u8],
    values: &mut [u64],
    called: &mut [u64],
) -> Waits
    requires records_value { every is_record (record_list records.now) ≡ true }
    requires sets { Sets tables.now.n (edges_in tables.now.edges) sets.now }
    requires called_value { called.old ≡ replicate 128 0 }
    requires values_len { length values.old ≡ tables.now.n }
    ensures { result ≡ waits_of_steps (start_of (lent_in tables.now) (record_list records.now)) nothing_named (step_records (record_list records.now)) }
{
    replay::values(records, values);
    count_steps(tables, sets, records, values, called)
}

// Works out the reaches of a built hierarchy, and counts.
fn count_built(tables: &Lent<'_>, records: &[u8]) -> Waits
    requires { Countable tables.now.n tables.now.edges.count tables.now.edges.numbers.now records.now }
    ensures { result ≡ waits_of_steps (start_of (lent_in tables.now) (record_list records.now)) nothing_named (step_records (record_list records.now)) }
{
    let n = tables.n;
    let mut sets = [0u64; reach_sets::WORDS];
    let words = 4 * n;
    let _ = reach_sets::sets(n, &tables.edges, &mut sets[..words]);
    let mut values = [0u64; hierarchy::NODES];
    let mut called = [0u64; 128];
    count_records(
        tables,
        &sets[..words],
        records,
        &mut values[..n],
        &mut called,
    )
}

// Counts the waits of an opened file, from the places that it was opened into.
fn count_opened(
    n: usize,
    places: &[u16],
    edges: &[u16],
    edge_count: usize,
    records: &[u8],
    total: usize,
) -> Waits
    requires n_in_bounds { (2 * n ≤ length places.now) × (2 * edge_count ≤ length edges.now) × (16 * total ≤ length records.now) }
    requires countable { Countable n edge_count (take (2 * edge_count) edges.now) (take (16 * total) records.now) }
    ensures { result ≡ waits_of_steps (start_of (lent n (take (2 * n) places.now) (take (2 * edge_count) edges.now) edge_count) (record_list (take (16 * total) records.now))) nothing_named (step_records (record_list (take (16 * total) records.now))) }
{
    let tables = Lent {
        n,
        intervals: &places[..2 * n],
        edges: EdgeTable {
            numbers: &edges[..2 * edge_count],
            count: edge_count,
        },
    };
    count_built(&tables, &records[..RECORD * total])
}

// The report over a file.
pub fn report(file: &[u8]) -> Waits
    ensures { result ≡ waits_of file.now }
{
    let mut records = [0u8; opening::RECORD_BYTES];
    let mut edges = [0u16; opening::EDGE_PLACES];
    let mut places = [0u16; opening::INTERVAL_PLACES];
    match opening::open_run(file, &mut records, &mut edges, &mut places) {
        Err(_) => NO_WAITS,
        Ok(opened) => {
            count_opened(
                opened.n,
                &places,
                &edges,
                opened.edge_count,
                &records,
                opened.total,
            )
        }
    }
}
