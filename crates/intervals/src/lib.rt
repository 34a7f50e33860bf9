// The numbering walk, intervals and building.
#![tactic(auto)]

ghost use Rattle.std.specs.Prelude.{◌≡◌, true, false, ℕ, ◌*◌, ◌<◌, ◌≤◌, length, get_or, take, replicate};
ghost use Rattle.lists.specs.Lists.{Went, zeros};
ghost use Rattle.lists.specs.Answer.{refusal, answer_of};
ghost use Rattle.refusals.specs.Refusals.{meaning};
ghost use Rattle.hierarchy.specs.Hierarchy.{edges_in, hierarchy_checks};
ghost use Rattle.intervals.specs.Numbering.{at as walk_at, walk as walked, numbering};
ghost use Rattle.intervals.specs.Intervals.{interval_table};
ghost use Rattle.intervals.specs.Build.{build_step, numbers_step};
ghost use Rattle.hierarchy.specs.Inner.{Edges};
ghost use Rattle.intervals.specs.Inner.{Ready, Fresh, is_better, improved, turn_at, Kept, Settled, Best, lows, highs, table_weight, or_most, doubled, Writable};

use hierarchy::EdgeTable;
use refusals::Refusal;

// Building is lent 512 bytes.
pub const SCRATCH: usize = 512;

// Walks an unseen node, and returns the next number.
// Kept: marks and numbers side by side: they are the scratch and the places that `build` and `numbers` are lent, and `build_step` says what stands in each.
fn walk(node: usize, next: u16, edges: &EdgeTable<'_>, marks: &mut [u8], numbers: &mut [u16]) -> u16
    requires { Ready node next edges.now.count edges.now.numbers.now marks.old numbers.old }
    ensures { (k : ℕ) → zeros marks.old ≤ k → walk_at result marks.new numbers.new ≡ walked k (edges_in edges.now) node (walk_at next marks.old numbers.old) }
{
    marks[node] = 1;
    let mut at = next;
    let mut leaf = true;
    // A copy, so that writing to marks and numbers does not make it be loaded anew at each turn.
    let own = *edges;
    for e in 0..own.count {
        let ends = hierarchy::edge_at(&own, e);
        let child = ends.child;
        if ends.parent == node {
            leaf = false;
            let unseen = marks[child] == 0;
            let open = marks[child] == 1;
            let unnumbered = numbers[child] == 0;
            if unseen {
                at = walk(child, at, edges, marks, numbers);
            } else if open && unnumbered {
                numbers[child] = at;
                at += 1;
            }
        }
    }
    marks[node] = 2;
    if leaf {
        numbers[node] = at;
        at + 1
    } else {
        at
    }
}

// Numbers the nodes by a walk from the root; the marks are the walk's own.
fn number(edges: &EdgeTable<'_>, marks: &mut [u8], numbers: &mut [u16])
    requires { Fresh (length marks.old) edges.now.count edges.now.numbers.now numbers.old }
    ensures { numbers.new ≡ numbering (length marks.old) (edges_in edges.now) }
{
    marks.fill(0);
    numbers.fill(0);
    walk(0, 1, edges, marks, numbers);
}

// Numbers n nodes: the number of each, 0 where it has none, goes into the first places. The marks of the walk are its own.
#[tactic(auto, unfolding(lists::specs::Answer::refusal, crate::specs::Build::numbers_step))]
pub fn numbers(n: usize, edges: &EdgeTable<'_>, places: &mut [u16]) -> Result<(), Refusal>
    ensures result_value { meaning result ≡ (numbers_step n edges.now.numbers.now edges.now.count places.old).answer }
    ensures places_after { places.new ≡ (numbers_step n edges.now.numbers.now edges.now.count places.old).places }
{
    if places.len() < n {
        return Err(Refusal::Short);
    }
    if edges.numbers.len() / 2 < edges.count {
        return Err(Refusal::Short);
    }
    hierarchy::judge(n, edges)?;
    let mut marks = [0u8; hierarchy::NODES];
    number(edges, &mut marks[..n], &mut places[..n]);
    Ok(())
}

// A number, with the largest u16 in the place of none.
fn or_most(number: u16) -> u16
    ensures { result ≡ or_most number }
{
    if number == 0 { u16::MAX } else { number }
}

// Writes what low and high start from for each of n nodes: its number, or 65,535 as the low of a node without one.
// Kept: low and high in turn as numbers: the places are lent so, and `interval_table` in the clause of `build` fixes them.
fn interleave(n: usize, numbers: &[u16], table: &mut [u16])
    requires n_in_bounds { n ≤ length numbers.now }
    requires table_len { length table.old ≡ 2 * n }
    ensures { table.new ≡ doubled (take n numbers.now) }
{
    for node in (0..n).rev() {
        let number = numbers[node];
        table[2 * node + 1] = number;
        table[2 * node] = or_most(number);
    }
}

// Whether x is better than y: greater where up is true, less where it is not.
// Kept: a flag for the direction: an enum of the two would be matched here alone, and no plainer.
fn better(up: bool, x: u16, y: u16) -> bool
    ensures { result ≡ is_better up x y }
{
    if up { y < x } else { x < y }
}

// One place takes another's value where that is better. Says whether it did.
fn improve(up: bool, to: usize, from: usize, table: &mut [u16]) -> bool
    requires to_in_bounds { to < length table.old }
    requires from_in_bounds { from < length table.old }
    ensures value { result ≡ is_better up (get_or table.old from 0) (get_or table.old to 0) }
    ensures table_after { table.new ≡ improved up to from table.old }
{
    let value = table[from];
    if better(up, value, table[to]) {
        table[to] = value;
        return true;
    }
    false
}

// The edge that a pass takes at its turn: back from the last of the table, or from its first on.
// Kept: a flag for the direction: a range and its reverse are of two types, so without it the pass would stand twice.
fn turn_at(back: bool, edge_count: usize, turn: usize) -> usize
    requires { turn < edge_count }
    ensures { result ≡ turn_at back edge_count turn }
{
    if back { edge_count - 1 - turn } else { turn }
}

// One pass over the edges, back or on: a parent takes its child's low where that is less, and its high where that is greater. Says whether any did.
fn relax_once(back: bool, edges: &EdgeTable<'_>, table: &mut [u16]) -> bool
    requires { Edges (length (lows table.old)) edges.now.count edges.now.numbers.now }
    ensures kept { Kept false (edges_in edges.now) (lows table.old) (lows table.new) }
    ensures kept_2 { Kept true (edges_in edges.now) (highs table.old) (highs table.new) }
    ensures went { Went table_weight result table.old table.new }
    ensures settled { result ≡ false → Settled false (edges_in edges.now) (lows table.new) × Settled true (edges_in edges.now) (highs table.new) }
{
    let mut changed = false;
    // A copy, as in `walk`.
    let own = *edges;
    for turn in 0..own.count {
        let ends = hierarchy::edge_at(&own, turn_at(back, own.count, turn));
        let to = 2 * ends.parent;
        let from = 2 * ends.child;
        let low = improve(false, to, from, table);
        let high = improve(true, to + 1, from + 1, table);
        changed |= low | high;
    }
    changed
}

// Gives each node the least low and the greatest high that it reaches, by one pass back and two on in turn: a table's order that is against the one
// is most often in favour of the other, and where it favours neither, a second pass on gets further than one back. Some order needs about n passes still.
fn settle(edges: &EdgeTable<'_>, table: &mut [u16])
    requires { Edges (length (lows table.old)) edges.now.count edges.now.numbers.now }
    ensures best { Best false (edges_in edges.now) (lows table.old) (lows table.new) }
    ensures best_2 { Best true (edges_in edges.now) (highs table.old) (highs table.new) }
{
    let mut last = false;
    let mut before = false;
    let mut on = true;
    while on {
        let back = !last && !before;
        on = relax_once(back, edges, table);
        before = last;
        last = back;
    }
}

// Writes the intervals of n nodes of a legal hierarchy, by their numbers.
fn write_intervals(n: usize, edges: &EdgeTable<'_>, numbers: &[u16], table: &mut [u16])
    requires { Writable n edges.now.count edges.now.numbers.now numbers.now table.old }
    ensures { table.new ≡ interval_table n (edges_in edges.now) }
{
    interleave(n, numbers, table);
    settle(edges, table);
}

// Builds the intervals of n nodes.
#[tactic(auto, unfolding(lists::specs::Answer::refusal, crate::specs::Build::build_step))]
pub fn build(
    n: usize,
    edges: &EdgeTable<'_>,
    places: &mut [u16],
    scratch: &mut [u8],
) -> Result<(), Refusal>
    ensures result_value { meaning result ≡ (build_step n edges.now.numbers.now edges.now.count places.old scratch.old).answer }
    ensures places_after { places.new ≡ (build_step n edges.now.numbers.now edges.now.count places.old scratch.old).places }
    ensures scratch_after { scratch.new ≡ (build_step n edges.now.numbers.now edges.now.count places.old scratch.old).scratch }
{
    if places.len() / 2 < n {
        return Err(Refusal::Short);
    }
    if edges.numbers.len() / 2 < edges.count {
        return Err(Refusal::Short);
    }
    if scratch.len() < SCRATCH {
        return Err(Refusal::Short);
    }
    if let Err(refusal) = hierarchy::judge(n, edges) {
        hierarchy::clear_first(SCRATCH, scratch);
        return Err(refusal);
    }
    let mut numbers = [0u16; hierarchy::NODES];
    number(edges, &mut scratch[..n], &mut numbers[..n]);
    write_intervals(n, edges, &numbers, &mut places[..2 * n]);
    hierarchy::clear_first(SCRATCH, scratch);
    Ok(())
}
