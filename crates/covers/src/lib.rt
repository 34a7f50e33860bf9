// Over an interval table of any contents: the interval of a node, the interval of a call and its cover.
#![tactic(auto)]

ghost use Rattle.std.specs.Prelude.{◌≡◌, List, [], ◌∷◌, ◌++◌, ℕ, ◌≤◌, length};
ghost use Rattle.covers.specs.Cover.{interval_at, call_interval, one_more, contains as containing, width as width_of, closer as is_closer, closest as closest_of, cover_of};

// The interval of a node or of a call, from its low to its high.
#[derive(Clone, Copy)]
pub struct Interval {
    pub low: u16,
    pub high: u16,
}

// The interval of a node in a table; past its end stands 0.
pub fn interval_at(intervals: &[u16], node: usize) -> Interval
    ensures { result ≡ interval_at intervals.now node }
{
    // All places past the end are alike.
    let place = 2 * node.min(intervals.len());
    Interval {
        low: intervals.get(place).copied().unwrap_or(0),
        high: intervals.get(place + 1).copied().unwrap_or(0),
    }
}

// One name more: from the bounds of the names so far and the interval of the next one, the bounds of those names with this one behind them.
fn one_name_more(bounds: Interval, next: Interval) -> Interval
    ensures value { result ≡ one_more bounds next }
    ensures by_index { (table names : List ℕ) (name : ℕ) → 1 ≤ length names → bounds ≡ call_interval table names → next ≡ interval_at table name → result ≡ call_interval table (names ++ (name ∷ [])) }
{
    Interval {
        low: bounds.low.min(next.low),
        high: bounds.high.max(next.high),
    }
}

// The call's interval, by one pass over the names: the first starts its bounds, and after each name they are those of the names so far.
pub fn call_interval(intervals: &[u16], names: &[u16]) -> Interval
    ensures { result ≡ call_interval intervals.now names.now }
{
    let Some((&first, others)) = names.split_first() else {
        return Interval { low: 0, high: 0 };
    };
    let mut bounds = interval_at(intervals, usize::from(first));
    for &name in others {
        let next = interval_at(intervals, usize::from(name));
        bounds = one_name_more(bounds, next);
    }
    bounds
}

// Whether an interval contains another.
fn contains(outer: Interval, inner: Interval) -> bool
    ensures { result ≡ containing outer inner }
{
    outer.low <= inner.low && inner.high <= outer.high
}

// How wide an interval is.
fn width(a: Interval) -> u16
    ensures { result ≡ width_of a }
{
    a.high.saturating_sub(a.low)
}

// Whether an interval is closer to the call's than another: it contains the call's, and the other does not or is wider.
fn closer(call: Interval, a: Interval, b: Interval) -> bool
    ensures { result ≡ is_closer call a b }
{
    contains(a, call) & (!contains(b, call) | (width(a) < width(b)))
}

// Of n nodes the closest to a call's interval, by one pass over those worth a look: over all of them where the table has their intervals. Past the end of the
// table all intervals are the same, so that a node there stands for all.
pub fn closest(n: usize, intervals: &[u16], call: Interval) -> usize
    ensures { result ≡ closest_of n intervals.now call }
{
    let mut best = 0;
    let mut around = interval_at(intervals, best);
    for node in 0..n.min(intervals.len() / 2 + 2) {
        let here = interval_at(intervals, node);
        if closer(call, here, around) {
            best = node;
            around = here;
        }
    }
    best
}

// The cover of a call.
pub fn cover(n: usize, intervals: &[u16], names: &[u16]) -> usize
    ensures { result ≡ cover_of n intervals.now names.now }
{
    let call = call_interval(intervals, names);
    closest(n, intervals, call)
}
