// The plain engine: each node's reach as a set, one bit for each node, and from it the least and the greatest number.
#![tactic(auto)]

ghost use Rattle.std.specs.Prelude.{◌≡◌, List, false, not, ℕ, ◌+◌, ◌*◌, ◌/◌, ◌<◌, ◌≤◌, eqb, length, get_or, drop, replicate};
ghost use Rattle.std.specs.Int.Bits.{bit_and};
ghost use Rattle.lists.specs.Lists.{over, Went, least, greatest};
ghost use Rattle.lists.specs.Answer.{refusal, answer_of, room_after};
ghost use Rattle.refusals.specs.Refusals.{meaning};
ghost use Rattle.hierarchy.specs.Hierarchy.{edges_in, flagged, hierarchy_checks};
ghost use Rattle.hierarchy.specs.Inner.{Edges};
ghost use Rattle.intervals.specs.Intervals.{numbers_among, interval_table};
ghost use Rattle.reach_sets.specs.Sets.{no_nodes, has as having, joined as union, meets as meeting, set_at, set_to, call_set, set_table};
ghost use Rattle.reach_sets.specs.Plain.{sets_step, plain_short, plain_step};
ghost use Rattle.reach_sets.specs.Inner.{single_of, room, Joins, Kept, Settled, Fillable, less_of, Spannable, Writable};

use covers::Interval;
use hierarchy::EdgeTable;
use refusals::Refusal;

// Building is lent 1,024 words, four for each of 256 nodes.
pub const WORDS: usize = 1024;

// A set of nodes: node i is bit i % 64 of word i / 64.
#[derive(Clone, Copy, PartialEq, Eq)]
pub struct NodeSet {
    pub words: [u64; 4],
}

// SETS. The set without a node.
pub fn none() -> NodeSet
    ensures { result ≡ no_nodes }
{
    NodeSet { words: [0; 4] }
}

// Whether a node is in a set, by a shift.
pub fn has(set: NodeSet, node: usize) -> bool
    ensures { result ≡ having set node }
{
    node < hierarchy::NODES && (set.words[node / 64] >> (node % 64)) & 1 == 1
}

// The nodes of either set, by or.
pub fn joined(a: NodeSet, b: NodeSet) -> NodeSet
    ensures { result ≡ union a b }
{
    // Kept: document 01 fixes the form, four words joined by or; each stands for itself.
    NodeSet {
        words: [
            a.words[0] | b.words[0],
            a.words[1] | b.words[1],
            a.words[2] | b.words[2],
            a.words[3] | b.words[3],
        ],
    }
}

// Whether two words have a bit in common.
fn common(a: u64, b: u64) -> bool
    ensures { (result ≡ not (eqb (bit_and a b) 0)) × (bit_and a b < 18446744073709551616) }
{
    a & b != 0
}

// Whether two sets have a node in common.
pub fn meets(a: NodeSet, b: NodeSet) -> bool
    ensures { result ≡ meeting a b }
{
    // Kept: a chain over the words was tried, and its proof did not close: only `common` says that two words out of a struct's array have 64 bits.
    common(a.words[0], b.words[0])
        | common(a.words[1], b.words[1])
        | common(a.words[2], b.words[2])
        | common(a.words[3], b.words[3])
}

// The set of one node.
fn single(node: usize) -> NodeSet
    requires { node < 256 }
    ensures { result ≡ single_of node }
{
    let mut set = none();
    set.words[node / 64] = 1 << (node % 64);
    set
}

// TABLES of sets, four words for each node. The set of a node; a word past the end of the table is 0, and all places there are alike.
pub fn set_at(table: &[u64], node: usize) -> NodeSet
    ensures { result ≡ set_at table.now node }
{
    let first = 4 * node.min(table.len());
    let word = |i: usize| table.get(i).copied().unwrap_or(0);
    NodeSet {
        words: [
            word(first),
            word(first + 1),
            word(first + 2),
            word(first + 3),
        ],
    }
}

// Puts a node's set into the table; a node that it has no four words for is passed over.
pub fn put_set(table: &mut [u64], node: usize, set: NodeSet)
    ensures { table.new ≡ set_to table.old node set }
{
    if node < table.len() / 4 {
        table[4 * node..4 * node + 4].copy_from_slice(&set.words);
    }
}

// The set of a call that names these nodes: the sets of its names, joined.
pub fn call_set(table: &[u64], names: &[u8]) -> NodeSet
    ensures { result ≡ call_set table.now names.now }
{
    let mut set = none();
    for &name in names {
        set = joined(set, set_at(table, usize::from(name)));
    }
    set
}

// REACH. Each of n nodes reaches itself.
fn start(n: usize, table: &mut [u64])
    requires { (n ≤ 256) × (length table.old ≡ 4 * n) }
    ensures { (x : ℕ) → x < n → set_at table.new x ≡ single_of x }
{
    for node in 0..n {
        put_set(table, node, single(node));
    }
}

// A parent's set takes its child's in. Says whether it grew.
fn join_at(parent: usize, child: usize, table: &mut [u64]) -> bool
    requires { 4 * parent + 3 < length table.old }
    ensures joins { Joins parent child table.old table.new }
    ensures went { Went room result table.old table.new }
{
    let before = set_at(table, parent);
    let after = joined(before, set_at(table, child));
    if before == after {
        return false;
    }
    put_set(table, parent, after);
    true
}

// One pass over the edges, back from the last: a parent's set takes its child's in. Says whether any grew.
fn join_once(edges: &EdgeTable<'_>, table: &mut [u64]) -> bool
    requires { Edges (length table.old / 4) edges.now.count edges.now.numbers.now }
    ensures kept { Kept (edges_in edges.now) table.old table.new }
    ensures went { Went room result table.old table.new }
    ensures settled { result ≡ false → Settled (edges_in edges.now) table.new }
{
    let mut grown = false;
    // A copy, so that writing to the sets does not make it be loaded anew at each turn.
    let own = *edges;
    for e in (0..own.count).rev() {
        let ends = hierarchy::edge_at(&own, e);
        grown |= join_at(ends.parent, ends.child, table);
    }
    grown
}

// Passes go on until one changes nothing.
fn join_all(edges: &EdgeTable<'_>, table: &mut [u64])
    requires { Edges (length table.old / 4) edges.now.count edges.now.numbers.now }
    ensures kept { Kept (edges_in edges.now) table.old table.new }
    ensures settled { Settled (edges_in edges.now) table.new }
{
    let mut on = true;
    while on {
        on = join_once(edges, table);
    }
}

// Writes the reach of each of n nodes of a legal hierarchy.
fn fill(n: usize, edges: &EdgeTable<'_>, table: &mut [u64])
    requires { Fillable n edges.now.count edges.now.numbers.now table.old }
    ensures { table.new ≡ set_table n (edges_in edges.now) }
{
    start(n, table);
    join_all(edges, table);
}

// The reach of each of n nodes, as sets from the first word on.
#[tactic(auto, unfolding(lists::specs::Answer::refusal, crate::specs::Plain::sets_step))]
pub fn sets(n: usize, edges: &EdgeTable<'_>, words: &mut [u64]) -> Result<(), Refusal>
    ensures result_value { meaning result ≡ (sets_step n edges.now.numbers.now edges.now.count words.old).answer }
    ensures words_after { words.new ≡ (sets_step n edges.now.numbers.now edges.now.count words.old).words }
{
    if words.len() / 4 < n {
        return Err(Refusal::Short);
    }
    if edges.numbers.len() / 2 < edges.count {
        return Err(Refusal::Short);
    }
    hierarchy::judge(n, edges)?;
    fill(n, edges, &mut words[..4 * n]);
    Ok(())
}

// INTERVALS. The less of two numbers, where 0 is none.
fn less_of(x: u16, y: u16) -> u16
    ensures { result ≡ less_of x y }
{
    if x == 0 {
        y
    } else if y == 0 {
        x
    } else {
        x.min(y)
    }
}

// The least and the greatest number among the nodes of a set.
fn span(set: NodeSet, numbers: &[u16]) -> Interval
    ensures { (flags : List ℕ) → length flags ≡ length numbers.now → ((y : ℕ) → y < length flags → having set y ≡ flagged flags y) → result ≡ record { low = least (numbers_among flags numbers.now); high = greatest (numbers_among flags numbers.now) } }
{
    let mut low = 0;
    let mut high = 0;
    for (y, &number) in numbers.iter().enumerate() {
        if has(set, y) {
            low = less_of(low, number);
            high = high.max(number);
        }
    }
    Interval { low, high }
}

// Writes the intervals of as many nodes as there are numbers, from their sets.
// Kept: low and high in turn as numbers: the places are lent so, and `interval_table` in the clause of `build` fixes them.
fn write_spans(words: &[u64], numbers: &[u16], places: &mut [u16])
    requires { length places.old ≡ 2 * length numbers.now }
    ensures { (n : ℕ) (es : List ℕ) → Spannable n es words.now numbers.now → places.new ≡ interval_table n es }
{
    for node in (0..numbers.len()).rev() {
        let at = span(set_at(words, node), numbers);
        places[2 * node + 1] = at.high;
        places[2 * node] = at.low;
    }
}

// Writes the intervals of n nodes of a legal hierarchy, by their numbers, over the first places.
fn write_intervals(
    n: usize,
    edges: &EdgeTable<'_>,
    numbers: &[u16],
    places: &mut [u16],
    words: &mut [u64],
)
    requires { Writable n edges.now.count edges.now.numbers.now numbers.now places.old words.old }
    ensures places_after { places.new ≡ over (interval_table n (edges_in edges.now)) places.old }
    ensures words_unchanged { drop 1024 words.new ≡ drop 1024 words.old }
{
    fill(n, edges, &mut words[..4 * n]);
    write_spans(words, numbers, &mut places[..2 * n]);
}

// Judges the hierarchy, numbers its nodes and writes their intervals, with lent places and words that are long enough.
#[tactic(auto, unfolding(lists::specs::Answer::refusal, intervals::specs::Build::numbers_step))]
fn build_plain(
    n: usize,
    edges: &EdgeTable<'_>,
    places: &mut [u16],
    words: &mut [u64],
) -> Result<(), Refusal>
    requires { plain_short n edges.now.numbers.now edges.now.count places.old words.old ≡ false }
    ensures result_value { meaning result ≡ answer_of (refusal (hierarchy_checks n edges.now.numbers.now edges.now.count)) tt }
    ensures places_after { places.new ≡ room_after (refusal (hierarchy_checks n edges.now.numbers.now edges.now.count)) (interval_table n (edges_in edges.now)) places.old }
    ensures words_unchanged { drop 1024 words.new ≡ drop 1024 words.old }
{
    if hierarchy::NODES < n {
        return Err(Refusal::SizeWrong);
    }
    let mut numbers = [0u16; hierarchy::NODES];
    intervals::numbers(n, edges, &mut numbers[..n])?;
    write_intervals(n, edges, &numbers[..n], places, words);
    Ok(())
}

// Builds the intervals of n nodes in the plain way.
#[tactic(auto, unfolding(lists::specs::Answer::refusal, crate::specs::Plain::plain_step))]
pub fn build(
    n: usize,
    edges: &EdgeTable<'_>,
    places: &mut [u16],
    words: &mut [u64],
) -> Result<(), Refusal>
    ensures result_value { meaning result ≡ (plain_step n edges.now.numbers.now edges.now.count places.old words.old).answer }
    ensures places_after { places.new ≡ (plain_step n edges.now.numbers.now edges.now.count places.old words.old).places }
    ensures words_after { words.new ≡ (plain_step n edges.now.numbers.now edges.now.count places.old words.old).words }
{
    if places.len() / 2 < n {
        return Err(Refusal::Short);
    }
    if edges.numbers.len() / 2 < edges.count {
        return Err(Refusal::Short);
    }
    if words.len() < WORDS {
        return Err(Refusal::Short);
    }
    let answer = build_plain(n, edges, places, words);
    words[..WORDS].fill(0);
    answer
}
