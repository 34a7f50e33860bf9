// A file's records as a hierarchy, values and steps: n, the edge table, the values at the start, and one step record performed on the desk.
#![tactic(auto)]

ghost use Rattle.std.specs.Prelude.{◌≡◌, ◌+◌, ◌*◌, ◌≤◌, length, eqb};
ghost use Rattle.lists.specs.Lists.{over};
ghost use Rattle.refusals.specs.Refusals.{meaning};
ghost use Rattle.octets.specs.Writes.{over_at};
ghost use Rattle.blocks.specs.Record.{kind_of, names_in};
ghost use Rattle.locks.specs.Lent.{lent_in};
ghost use Rattle.desk.specs.Answers.{enter_meaning, get_meaning, leave_meaning};
ghost use Rattle.replay.specs.Replay.{record_list, size_of, edge_table, edge_count_of, enter_line, get_line, enter_call, get_call, put_call, add_call, leave_call, state_of, is_step, with_value, values_in, perform as performing};
ghost use Rattle.replay.specs.Answers.{EdgesInto, edges_into, outcome_of, Performs};
ghost use Rattle.replay.specs.Inner.{edge_of, left_outcome, told, plain, PerformsCall, PerformsAny};

use arrivals::PARTIES;
use blocks::RECORD;
use desk::{Desk, EnterAnswer, GetAnswer};
use locks::Lent;
use refusals::Refusal;

// What a step of a file answers, one value for the five kinds. `Left` counts the granted parties, which stand first in `Step::parties`.
#[derive(Clone, Copy)]
pub enum Outcome {
    Granted(usize),
    Waits,
    Value(u64),
    Stored,
    Added,
    Left(usize),
    Refused(u8),
}

// What a step of a file hands back: the next desk, the answer, and the parties that a leave granted, with zeros behind them.
#[derive(Clone, Copy)]
pub struct Step {
    pub desk: Desk,
    pub outcome: Outcome,
    pub parties: [u8; PARTIES],
}

impl Step {
    // A step that grants no parties.
    fn plain(desk: Desk, outcome: Outcome) -> Step
        ensures { result ≡ plain desk outcome }
    {
        Step {
            desk,
            outcome,
            parties: [0u8; PARTIES],
        }
    }
}

// n, from the size record, which comes first; 0 where there is no record.
pub fn size(records: &[u8]) -> usize
    ensures { result ≡ size_of (record_list records.now) }
{
    if records.len() < RECORD {
        0
    } else {
        octets::number2(records, 1) as usize
    }
}

// Whether a record is an edge.
fn is_edge(bytes: &[u8]) -> bool
    ensures { result ≡ eqb (kind_of bytes.now) 2 }
{
    octets::byte(bytes, 0) == 2
}

// The edge count.
fn edge_count(records: &[u8]) -> usize
    ensures { result ≡ edge_count_of (record_list records.now) }
{
    let mut count = 0;
    for bytes in records.chunks_exact(RECORD) {
        count += usize::from(is_edge(bytes));
    }
    count
}

// Puts a record into the table from place `at` on, if it is an edge, and answers the place behind it.
fn put_edge(bytes: &[u8], at: usize, table: &mut [u16]) -> usize
    requires { at + length (edge_of bytes.now) ≤ length table.old }
    ensures { (result ≡ at + length (edge_of bytes.now)) × (table.new ≡ over_at at (edge_of bytes.now) table.old) }
{
    if !is_edge(bytes) {
        return at;
    }
    table[at] = u16::from(octets::byte(bytes, 1));
    table[at + 1] = u16::from(octets::byte(bytes, 2));
    at + 2
}

// Puts all edges into the table.
fn put_edges(records: &[u8], table: &mut [u16])
    requires { 2 * edge_count_of (record_list records.now) ≤ length table.old }
    ensures { table.new ≡ over (edge_table (record_list records.now)) table.old }
{
    let mut at = 0;
    for bytes in records.chunks_exact(RECORD) {
        at = put_edge(bytes, at, table);
    }
}

// The edge table, from the edge records in their order, into lent places; answers the edge count.
pub fn edges(records: &[u8], table: &mut [u16]) -> Result<usize, Refusal>
    ensures { EdgesInto result table.new (edges_into (record_list records.now) table.old) }
{
    let count = edge_count(records);
    if table.len() / 2 < count {
        return Err(Refusal::Short);
    }
    put_edges(records, table);
    Ok(count)
}

// Puts the value of a value record into its node's place, if there is one; any other record changes nothing.
fn put_value(bytes: &[u8], places: &mut [u64])
    ensures { places.new ≡ with_value places.old bytes.now }
{
    let node = usize::from(octets::byte(bytes, 1));
    if octets::byte(bytes, 0) == 8 && node < places.len() {
        places[node] = octets::number8(bytes, 4);
    }
}

// The values that a run starts from, as many as there are places: those of the value records, zero where none is given.
pub fn values(records: &[u8], places: &mut [u64])
    ensures { places.new ≡ values_in (length places.old) (record_list records.now) }
{
    places.fill(0);
    for bytes in records.chunks_exact(RECORD) {
        put_value(bytes, places);
    }
}

// How many names a record has: as many as its name count says, if it is as long.
pub fn names_in(bytes: &[u8]) -> usize
    ensures { (result ≡ length (names_in bytes.now)) × (result ≤ 255) }
{
    usize::from(octets::byte(bytes, 3)).min(bytes.len().saturating_sub(4))
}

// Puts a record's names into the first places, and answers how many there are.
fn put_names(bytes: &[u8], names: &mut [u16]) -> usize
    requires { 255 ≤ length names.old }
    ensures { (result ≡ length (names_in bytes.now)) × (names.new ≡ over (names_in bytes.now) names.old) }
{
    let count = names_in(bytes);
    for i in 0..count {
        names[i] = u16::from(octets::byte(bytes, i + 4));
    }
    count
}

// What enter answered, as an outcome.
impl From<EnterAnswer> for Outcome {
    ghost from_gives = { λ a o. o ≡ outcome_of (enter_line (enter_meaning a)) };

    fn from(answer: EnterAnswer) -> Outcome {
        match answer {
            EnterAnswer::Granted(cover) => Outcome::Granted(cover),
            EnterAnswer::Waits => Outcome::Waits,
            EnterAnswer::Refused(k) => Outcome::Refused(k.number()),
        }
    }
}

// What get answered: waiting is refusal 14.
impl From<GetAnswer> for Outcome {
    ghost from_gives = { λ a o. o ≡ outcome_of (get_line (get_meaning a)) };

    fn from(answer: GetAnswer) -> Outcome {
        match answer {
            GetAnswer::Value(v) => Outcome::Value(v),
            GetAnswer::Waiting => Outcome::Refused(14),
            GetAnswer::Refused(k) => Outcome::Refused(k.number()),
        }
    }
}

// What put or add answered: this outcome, or refused.
fn told(answer: Result<(), Refusal>, done: Outcome) -> Outcome
    ensures { result ≡ told (meaning answer) done }
{
    match answer {
        Ok(()) => done,
        Err(k) => Outcome::Refused(k.number()),
    }
}

// What leave answered.
fn left(answer: Result<usize, Refusal>) -> Outcome
    ensures { result ≡ left_outcome (leave_meaning answer) }
{
    match answer {
        Ok(k) => Outcome::Left(k),
        Err(k) => Outcome::Refused(k.number()),
    }
}

// An enter record performed.
fn perform_enter(desk: Desk, tables: &Lent<'_>, bytes: &[u8]) -> Step
    ensures { PerformsAny result (lent_in tables.now) desk (enter_call bytes.now) }
{
    let party = usize::from(octets::byte(bytes, 1));
    let m = octets::byte(bytes, 2);
    let mode = locks::mode_when(m == 1, m == 2);
    let name_count = usize::from(octets::byte(bytes, 3));
    let mut names = [0u16; 255];
    let k = put_names(bytes, &mut names);
    let step = desk.enter(tables, party, mode, &names[..k], name_count);
    Step::plain(step.desk, Outcome::from(step.answer))
}

// A get record performed.
fn perform_get(desk: Desk, tables: &Lent<'_>, bytes: &[u8], values: &[u64]) -> Step
    ensures { PerformsCall result (lent_in tables.now) desk (get_call bytes.now) values.now values.now }
{
    let party = usize::from(octets::byte(bytes, 1));
    let node = usize::from(octets::byte(bytes, 2));
    let mut scratch = [0u8; 256];
    let step = desk.get(tables, party, node, values, &mut scratch);
    let answer = step.answer;
    let GetAnswer::Value(v) = answer else {
        return Step::plain(step.desk, Outcome::from(answer));
    };
    Step::plain(step.desk, Outcome::Value(v))
}

// A put record performed.
fn perform_put(desk: Desk, tables: &Lent<'_>, bytes: &[u8], values: &mut [u64]) -> Step
    ensures { PerformsCall result (lent_in tables.now) desk (put_call bytes.now) values.old values.new }
{
    let party = usize::from(octets::byte(bytes, 1));
    let node = usize::from(octets::byte(bytes, 2));
    let value = octets::number8(bytes, 4);
    let mut scratch = [0u8; 256];
    let step = desk.put(tables, party, node, value, values, &mut scratch);
    Step::plain(step.desk, told(step.answer, Outcome::Stored))
}

// A leave record performed.
fn perform_leave(desk: Desk, tables: &Lent<'_>, bytes: &[u8]) -> Step
    ensures { PerformsAny result (lent_in tables.now) desk (leave_call bytes.now) }
{
    let party = usize::from(octets::byte(bytes, 1));
    let mut parties = [0u8; PARTIES];
    let step = desk.leave(tables, party, &mut parties);
    Step {
        desk: step.desk,
        outcome: left(step.answer),
        parties,
    }
}

// An add record performed.
fn perform_add(desk: Desk, tables: &Lent<'_>, bytes: &[u8], values: &mut [u64]) -> Step
    ensures { PerformsCall result (lent_in tables.now) desk (add_call bytes.now) values.old values.new }
{
    let party = usize::from(octets::byte(bytes, 1));
    let node = usize::from(octets::byte(bytes, 2));
    let number = octets::number8(bytes, 4);
    let mut scratch = [0u8; 256];
    let step = desk.add(tables, party, node, number, values, &mut scratch);
    Step::plain(step.desk, told(step.answer, Outcome::Added))
}

// Whether bytes are a record of 16 bytes that is right, and a step.
fn is_step(bytes: &[u8]) -> bool
    ensures { result ≡ is_step bytes.now }
{
    bytes.len() == RECORD
        && blocks::record_right(bytes)
        && blocks::step_kind(octets::byte(bytes, 0))
}

// Any bytes performed on the desk as a record of a file: refused with 4 where they are no step, or one that is not right; else by kind, 3 enter, 4 get,
// 5 put, 6 leave, 7 add.
pub fn perform(desk: Desk, tables: &Lent<'_>, bytes: &[u8], values: &mut [u64]) -> Step
    ensures { Performs result values.new (performing (state_of (lent_in tables.now) desk values.old) bytes.now) }
{
    if !is_step(bytes) {
        return Step::plain(desk, Outcome::Refused(4));
    }
    match octets::byte(bytes, 0) {
        3 => perform_enter(desk, tables, bytes),
        4 => perform_get(desk, tables, bytes, values),
        5 => perform_put(desk, tables, bytes, values),
        6 => perform_leave(desk, tables, bytes),
        _ => perform_add(desk, tables, bytes, values),
    }
}
