// The hierarchy: edges, reach, and refusals 5 to 9. No public function asks anything of what it is lent.
#![tactic(auto)]

ghost use Rattle.std.specs.Prelude.{◌≡◌, ◌&&◌, min, length, get_or, set, replicate};
ghost use Rattle.lists.specs.Lists.{over, set_if, zeros, Went, Below};
ghost use Rattle.lists.specs.Answer.{refusal, answer_of};
ghost use Rattle.refusals.specs.Refusals.{meaning};
ghost use Rattle.hierarchy.specs.Hierarchy.{edges_in, some_edge, spread, spreads, flagged, in_reach, flag_all, reach_all, edge_wrong, same_edge, edge_twice, size_wrong, some_unreached, hierarchy_checks};
ghost use Rattle.hierarchy.specs.Inner.{ends_at, pairs, some_pair, unflagged, Grown};

use refusals::Refusal;

// A hierarchy has at most 256 nodes
pub const NODES: usize = 256;

// and at most 1,024 edges.
pub const EDGES: usize = 1024;

// The two ends of an edge.
#[derive(Clone, Copy)]
pub struct Ends {
    pub parent: usize,
    pub child: usize,
}

// An edge table, two numbers an edge, and the edge count that is given beside it.
#[derive(Clone, Copy)]
pub struct EdgeTable<'a> {
    pub numbers: &'a [u16],
    pub count: usize,
}

impl EdgeTable<'_> {
    // The edges, parent and child: a table that is shorter than its count has those that it has, and an odd last number is no edge.
    fn pairs(&self) -> &[[u16; 2]]
        ensures { result.now ≡ pairs (edges_in self.now) }
    {
        let (pairs, _) = self.numbers.as_chunks::<2>();
        &pairs[..self.count.min(pairs.len())]
    }
}

// EDGES. The ends of edge e of a table; past its end stands 0.
pub fn edge_at(edges: &EdgeTable<'_>, e: usize) -> Ends
    ensures { result ≡ ends_at edges.now.numbers.now e }
{
    let numbers = edges.numbers;
    if e < numbers.len() / 2 {
        return Ends {
            parent: usize::from(numbers[2 * e]),
            child: usize::from(numbers[2 * e + 1]),
        };
    }
    // An odd last number is a parent without a child. All places past the end are alike.
    let last = numbers.get(2 * e.min(numbers.len())).copied();
    Ends {
        parent: usize::from(last.unwrap_or(0)),
        child: 0,
    }
}

// Whether an edge is none that n nodes may have: 7 of the table of refusals.
fn edge_wrong(n: usize, parent: usize, child: usize) -> bool
    ensures { result ≡ edge_wrong n parent child }
{
    n <= parent || n <= child || child == 0 || parent == child
}

// Whether one of these edges is, up to the first that is.
fn some_wrong(n: usize, pairs: &[[u16; 2]]) -> bool
    ensures { result ≡ some_pair (edge_wrong n) pairs.now }
{
    pairs.iter().any(|&[parent, child]| edge_wrong(n, usize::from(parent), usize::from(child)))
}

// Whether some edge is none that n nodes may have. For an n that fits what an end fits all four tests are made of each, so that many edges are tested at once.
pub fn edges_wrong(n: usize, edges: &EdgeTable<'_>) -> bool
    ensures { result ≡ some_edge (edge_wrong n) (edges_in edges.now) }
{
    let pairs = edges.pairs();
    if 65535 < n {
        return some_wrong(n, pairs);
    }
    let Some(last) = n.checked_sub(1) else {
        return !pairs.is_empty();
    };
    // It fits: n is at most 65,535 here.
    let last = u16::try_from(last).unwrap_or(u16::MAX);
    let mut wrong = false;
    for &[parent, child] in pairs {
        wrong |= (last < parent) | (last < child) | (child == 0) | (parent == child);
    }
    wrong
}

// Whether an edge stands among others. Both tests are made of each, so that many edges are tested at once.
fn stands(edge: &[u16; 2], others: &[[u16; 2]]) -> bool
    ensures { result ≡ some_pair (same_edge (get_or edge.now 0 0) (get_or edge.now 1 0)) others.now }
{
    let &[parent, child] = edge;
    let mut found = false;
    for &[p, c] in others {
        found |= (p == parent) & (c == child);
    }
    found
}

// Whether an edge stands twice: 8 of the table of refusals.
fn edge_twice(edges: &EdgeTable<'_>) -> bool
    ensures { result ≡ edge_twice (edges_in edges.now) }
{
    let mut left = edges.pairs();
    while let [edge, later @ ..] = left {
        if stands(edge, later) {
            return true;
        }
        left = later;
    }
    false
}

// REACH. Sets the first bytes to 0, so many of them, or all where there are fewer.
pub fn clear_first(count: usize, bytes: &mut [u8])
    ensures { bytes.new ≡ over (replicate (min count (length bytes.old)) 0) bytes.old }
{
    let end = count.min(bytes.len());
    bytes[..end].fill(0);
}

// Whether a node has a flag; one that is not among the flags has none.
fn has_flag(flags: &[u8], node: usize) -> bool
    ensures { result ≡ flagged flags.now node }
{
    flags.get(node).copied().unwrap_or(0) != 0
}

// Flags a node, and says whether its flag is new; one that is not among the flags is passed over.
fn flag(flags: &mut [u8], node: usize) -> bool
    ensures new { result ≡ unflagged flags.old node }
    ensures flags_after { flags.new ≡ set flags.old node 1 }
{
    if flags.len() <= node {
        return false;
    }
    let new = flags[node] == 0;
    flags[node] = 1;
    new
}

// Flags each of these nodes.
fn flag_names(names: &[u8], flags: &mut [u8])
    ensures { flags.new ≡ flag_all names.now flags.old }
{
    for &name in names {
        flag(flags, usize::from(name));
    }
}

// Where the parent of an edge is flagged, the child is. Says whether its flag is new.
fn follow(edge: &[u16; 2], flags: &mut [u8]) -> bool
    ensures new { result ≡ (flagged flags.old (get_or edge.now 0 0) && unflagged flags.old (get_or edge.now 1 0)) }
    ensures flags_after { flags.new ≡ set_if (flagged flags.old (get_or edge.now 0 0)) flags.old (get_or edge.now 1 0) 1 }
{
    let &[parent, child] = edge;
    has_flag(flags, usize::from(parent)) && flag(flags, usize::from(child))
}

// One pass over the edges: each is followed. Says whether a flag is new.
fn spread_once(edges: &EdgeTable<'_>, flags: &mut [u8]) -> bool
    requires { Below 2 flags.old }
    ensures flags_after { flags.new ≡ spread (edges_in edges.now) flags.old }
    ensures went { Went zeros result flags.old flags.new }
{
    let mut changed = false;
    for edge in edges.pairs() {
        changed |= follow(edge, flags);
    }
    changed
}

// One pass over the edges, back from the last.
fn spread_back(edges: &EdgeTable<'_>, flags: &mut [u8])
    requires { Below 2 flags.old }
    ensures { Grown (edges_in edges.now) flags.old flags.new }
{
    for edge in edges.pairs().iter().rev() {
        follow(edge, flags);
    }
}

// Passes go on, one back and one on in turn, until the one on changes nothing: an order that is against the one is most often in favour of the other.
fn spread_all(edges: &EdgeTable<'_>, flags: &mut [u8])
    requires { Below 2 flags.old }
    ensures { flags.new ≡ spreads (length flags.old) (edges_in edges.now) flags.old }
{
    let mut on = true;
    while on {
        spread_back(edges, flags);
        on = spread_once(edges, flags);
    }
}

// Flags the nodes that one of these reaches, of as many nodes as there are flags.
pub fn flag_reach(edges: &EdgeTable<'_>, names: &[u8], flags: &mut [u8])
    ensures { flags.new ≡ reach_all (length flags.old) (edges_in edges.now) names.now }
{
    flags.fill(0);
    flag_names(names, flags);
    spread_all(edges, flags);
}

// Whether a node is in the reach of one of these, of as many nodes as there are flags. The flags are 0 afterwards.
pub fn in_reach(edges: &EdgeTable<'_>, names: &[u8], node: usize, flags: &mut [u8]) -> bool
    ensures value { result ≡ in_reach (length flags.old) (edges_in edges.now) names.now node }
    ensures flags_after { flags.new ≡ replicate (length flags.old) 0 }
{
    flag_reach(edges, names, flags);
    let found = has_flag(flags, node);
    flags.fill(0);
    found
}

// Whether the root does not reach some node, of as many as there are flags: 9 of the table of refusals.
fn some_unreached(edges: &EdgeTable<'_>, flags: &mut [u8]) -> bool
    ensures { result ≡ some_unreached (length flags.old) (edges_in edges.now) }
{
    flag_reach(edges, &[0], flags);
    flags.contains(&0)
}

// JUDGING. Whether n is not in 1 to 256.
pub fn size_wrong(n: usize) -> bool
    ensures { result ≡ size_wrong n }
{
    n < 1 || NODES < n
}

// The lowest refusal from 5 to 9 that applies, if the hierarchy is not legal.
#[tactic(auto, unfolding(lists::specs::Answer::refusal))]
pub fn judge(n: usize, edges: &EdgeTable<'_>) -> Result<(), Refusal>
    ensures { meaning result ≡ answer_of (refusal (hierarchy_checks n edges.now.numbers.now edges.now.count)) tt }
{
    if size_wrong(n) {
        return Err(Refusal::SizeWrong);
    }
    if EDGES < edges.count {
        return Err(Refusal::ManyEdges);
    }
    if edges_wrong(n, edges) {
        return Err(Refusal::EdgeWrong);
    }
    if edge_twice(edges) {
        return Err(Refusal::EdgeTwice);
    }
    let mut flags = [0; NODES];
    if some_unreached(edges, &mut flags[..n]) {
        return Err(Refusal::Unreached);
    }
    Ok(())
}
