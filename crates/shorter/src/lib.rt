// A file cut after its first k steps: the shorter file into a lent room.
#![tactic(auto)]

ghost use Rattle.std.specs.Prelude.{◌≡◌, true, ◌+◌, ◌*◌, ◌<◌, ◌≤◌, length, take};
ghost use Rattle.lists.specs.Lists.{every, over};
ghost use Rattle.refusals.specs.Refusals.{meaning};
ghost use Rattle.octets.specs.Writes.{over_at};
ghost use Rattle.locks.specs.Lent.{lent, lent_in};
ghost use Rattle.desk.specs.Desks.{fresh_desk};
ghost use Rattle.replay.specs.Replay.{record_list, is_step, state_of, perform_all};
ghost use Rattle.cutting.specs.Cut.{value_record, cut_file};
ghost use Rattle.shorter.specs.Inner.{value_bytes, values_bytes, short_bytes, Wrote, Shaped, Runs};

use blocks::RECORD;
use desk::Desk;
use hierarchy::EdgeTable;
use locks::Lent;
use opening::Opened;
use refusals::Refusal;

// Performs steps one after the other, from a fresh desk on, and hands back the last desk.
fn perform_steps(tables: &Lent<'_>, steps: &[u8], values: &mut [u64]) -> Desk
    requires { every is_step (record_list steps.now) ≡ true }
    ensures { state_of (lent_in tables.now) result values.new ≡ (perform_all (state_of (lent_in tables.now) fresh_desk values.old) (record_list steps.now)).state }
{
    let mut desk = Desk::fresh();
    for bytes in steps.chunks_exact(RECORD) {
        desk = replay::perform(desk, tables, bytes, values).desk;
    }
    desk
}

// Writes the value record of a node from a place of the room on.
fn put_record(node: usize, value: u64, at: usize, room: &mut [u8])
    requires { (node < 256) × (at + 16 ≤ length room.old) }
    ensures { room.new ≡ over_at at (value_record node value) room.old }
{
    let mut bytes = [0u8; RECORD];
    bytes[0] = 8;
    bytes[1] = node as u8;
    octets::put4((value % 4294967296) as u32, 4, &mut bytes);
    octets::put4((value / 4294967296) as u32, 8, &mut bytes);
    octets::copy_at(&bytes, at, room);
}

// Writes the value record of a node if its value is not zero, and answers the place behind it.
fn put_value(node: usize, value: u64, at: usize, room: &mut [u8]) -> usize
    requires { (node < 256) × (at + 16 ≤ length room.old) }
    ensures { (result ≡ at + length (value_bytes node value)) × (room.new ≡ over_at at (value_bytes node value) room.old) }
{
    if value == 0 {
        return at;
    }
    put_record(node, value, at, room);
    at + RECORD
}

// Writes a value record for each value that is not zero, by ascending node, and answers the place behind them.
fn put_values(values: &[u64], at: usize, room: &mut [u8]) -> usize
    requires { (length values.now ≤ 256) × (at + 16 * length values.now ≤ length room.old) }
    ensures { (result ≡ at + length (values_bytes values.now)) × (room.new ≡ over_at at (values_bytes values.now) room.old) }
{
    let mut to = at;
    for (node, &value) in values.iter().enumerate() {
        to = put_value(node, value, to, room);
    }
    to
}

// Puts the records of the shorter file into the room: the first bytes of those of the whole one, the value records, and the bytes from a place on. Answers how many bytes these are.
fn put_short(records: &[u8], head: usize, from: usize, values: &[u64], room: &mut [u8]) -> usize
    requires head_in_bounds { (head ≤ length records.now) × (from ≤ length records.now) × (length values.now ≤ 256) }
    requires values_in_bounds { (head + 16 * length values.now ≤ length room.old) × (length (short_bytes records.now head from values.now) ≤ length room.old) }
    ensures { (result ≡ length (short_bytes records.now head from values.now)) × (room.new ≡ over (short_bytes records.now head from values.now) room.old) }
{
    octets::copy_at(&records[0..head], 0, room);
    let at = put_values(values, head, room);
    let end = records.len();
    octets::copy_at(&records[from..end], at, room);
    at + (end - from)
}

// Writes the records of the shorter file into the room as a file.
fn write_short(
    records: &[u8],
    head: usize,
    from: usize,
    values: &[u64],
    room: &mut [u8],
) -> Result<usize, Refusal>
    requires head_in_bounds { (head ≤ length records.now) × (from ≤ length records.now) × (length values.now ≤ 256) }
    requires values_bound { (head + 16 * length values.now ≤ 63488) × (length (short_bytes records.now head from values.now) ≤ 63488) }
    ensures { Wrote (short_bytes records.now head from values.now) room.old result room.new }
{
    let mut short = [0u8; opening::RECORD_BYTES];
    let bytes = put_short(records, head, from, values, &mut short);
    blocks::write(&short[..bytes], bytes / RECORD, room)
}

// Cuts an opened file: its first k steps are performed, and the shorter file is written where nobody holds or waits behind them.
fn cut_run(
    tables: &Lent<'_>,
    records: &[u8],
    k: usize,
    values: &mut [u64],
    room: &mut [u8],
) -> Result<usize, Refusal>
    requires { (length values.old ≡ tables.now.n) × (tables.now.n ≤ 256) × Shaped (lent_in tables.now) records.now }
    ensures { Runs (lent_in tables.now) records.now k room.old result room.new }
{
    let steps = opening::step_count(records);
    if steps < k {
        return Err(Refusal::FewSteps);
    }
    let total = records.len() / RECORD;
    let first = RECORD * (total - steps);
    let from = first + RECORD * k;
    replay::values(records, values);
    let desk = perform_steps(tables, &records[first..from], values);
    if parties::someone_in(desk.entries) {
        return Err(Refusal::SomeoneIn);
    }
    write_short(
        records,
        RECORD * (1 + tables.edges.count),
        from,
        values,
        room,
    )
}

// Cuts an opened file, from the places that it was opened into.
fn cut_opened(
    opened: Opened,
    places: &[u16],
    edges: &[u16],
    records: &[u8],
    k: usize,
    room: &mut [u8],
) -> Result<usize, Refusal>
    requires n_bound { (opened.n ≤ 256) × (2 * opened.n ≤ length places.now) × (2 * opened.edge_count ≤ length edges.now) × (16 * opened.total ≤ length records.now) }
    requires shaped { Shaped (lent opened.n (take (2 * opened.n) places.now) (take (2 * opened.edge_count) edges.now) opened.edge_count) (take (16 * opened.total) records.now) }
    ensures { Runs (lent opened.n (take (2 * opened.n) places.now) (take (2 * opened.edge_count) edges.now) opened.edge_count) (take (16 * opened.total) records.now) k room.old result room.new }
{
    let n = opened.n;
    let low = 2 * n;
    let intervals = &places[..low];
    let count = opened.edge_count;
    let ends = 2 * count;
    let numbers = &edges[..ends];
    let edges = EdgeTable { numbers, count };
    let tables = Lent {
        n,
        intervals,
        edges,
    };
    let bytes = RECORD * opened.total;
    let mut values = [0u64; hierarchy::NODES];
    cut_run(&tables, &records[..bytes], k, &mut values[..n], room)
}

// Cuts a file after its first k steps: the shorter file, as many blocks as are answered, goes to the front of the room. A refusal changes nothing.
pub fn cut(file: &[u8], k: usize, room: &mut [u8]) -> Result<usize, Refusal>
    ensures { (meaning result ≡ (cut_file file.now k room.old).answer) × (room.new ≡ (cut_file file.now k room.old).room) }
{
    if room.len() < file.len() {
        return Err(Refusal::Short);
    }
    let mut records = [0u8; opening::RECORD_BYTES];
    let mut edges = [0u16; opening::EDGE_PLACES];
    let mut places = [0u16; opening::INTERVAL_PLACES];
    let opened = opening::open_run(file, &mut records, &mut edges, &mut places)?;
    cut_opened(opened, &places, &edges, &records, k, room)
}
