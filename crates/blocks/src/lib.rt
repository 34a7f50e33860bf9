// Block files: records, reading and writing, refusals 1 to 4.
#![tactic(auto)]

ghost use Rattle.std.specs.Prelude.{◌≡◌, ℕ, List, ◌+◌, ◌*◌, ◌<◌, ◌≤◌, length};
ghost use Rattle.lists.specs.Lists.{over};
ghost use Rattle.octets.specs.Writes.{over_at};
ghost use Rattle.blocks.specs.Record.{kind_of, zero_but_value, enter_right, value_right, record_right, step_kind, begun, at_first, among_edges, among_values, among_steps};
ghost use Rattle.blocks.specs.Block.{placed, after_record, after_records, count_in, count_right, head_right, after_block, records_in, block_of};
ghost use Rattle.blocks.specs.File.{after_blocks, records_of, not_blocks, read_file, blocks_of, write_file};
ghost use Rattle.blocks.specs.Inner.{Named, stage_of, Reads};
ghost use Rattle.refusals.specs.Refusals.{meaning};

use refusals::Refusal;

// Bytes of a record.
pub const RECORD: usize = 16;

// Bytes of a block.
const BLOCK: usize = 512;

// Records in a full block
const MOST: u32 = 31;

// and their bytes.
const FULL: usize = 496;

// Where a block's records begin
const HEAD: usize = 8;

// and where its check stands.
const CHECK: usize = 508;

// The kinds of records.
#[derive(Clone, Copy)]
enum RecordKind {
    Size,
    Edge,
    Enter,
    Get,
    Put,
    Leave,
    Add,
    Value,
}

// The part of a file that its last record stands in.
#[derive(Clone, Copy)]
enum Part {
    // No record yet.
    Nothing,
    // The size record and edges.
    Edges,
    Values,
    Steps,
}

// How far reading has come.
#[derive(Clone, Copy)]
struct Stage {
    part: Part,
    // n of the size record; 0 before it.
    size: u16,
    // The least node that the next value may have.
    next: u16,
}

// Nothing is read.
const BEGUN: Stage = Stage {
    part: Part::Nothing,
    size: 0,
    next: 0,
};

// READING. Whether an enter has a mode, one to eight names, and zeros after them.
#[tactic(auto, unfolding(crate::specs::Record::enter_right))]
fn enter_right(r: &[u8]) -> bool
    ensures { result ≡ enter_right r.now }
{
    let mode = octets::byte(r, 2);
    let names = usize::from(octets::byte(r, 3));
    1 <= mode && mode <= 3 && 1 <= names && names <= 8 && octets::zero_from(r, 4 + names)
}

// Whether all bytes from `at` on, but for a value in bytes 4 to 11, are zero.
fn zero_but_value(r: &[u8], at: usize) -> bool
    ensures { result ≡ zero_but_value at r.now }
{
    octets::zero_between(r, at, 4) && octets::zero_from(r, 12)
}

// Whether a value is not zero, and the unused bytes of its record are.
#[tactic(auto, unfolding(crate::specs::Record::value_right))]
fn value_right(r: &[u8]) -> bool
    ensures { result ≡ value_right r.now }
{
    zero_but_value(r, 2) && octets::number8(r, 4) != 0
}

// Whether a kind is a step's: from 3 on, but not 8, the kind of a value. Records are right of 3 to 7 only.
// Kept: callers hand it any byte, and its definition says of each number what it is, so a number it stays.
pub fn step_kind(kind: u8) -> bool
    ensures { result ≡ step_kind kind }
{
    3 <= kind && kind != 8
}

// The kind of a record, by its number in byte 0.
fn kind_in(r: &[u8]) -> Option<RecordKind>
    ensures { Named result (kind_of r.now) }
{
    match octets::byte(r, 0) {
        1 => Some(RecordKind::Size),
        2 => Some(RecordKind::Edge),
        3 => Some(RecordKind::Enter),
        4 => Some(RecordKind::Get),
        5 => Some(RecordKind::Put),
        6 => Some(RecordKind::Leave),
        7 => Some(RecordKind::Add),
        8 => Some(RecordKind::Value),
        _ => None,
    }
}

// Whether a record is right by itself, by its kind's row.
pub fn record_right(r: &[u8]) -> bool
    ensures { result ≡ record_right r.now }
{
    // Kept: an arm for each kind; in one arm for several the proof is not told which of them it was.
    match kind_in(r) {
        Some(RecordKind::Size) => octets::zero_from(r, 3),
        Some(RecordKind::Edge) => octets::zero_from(r, 3),
        Some(RecordKind::Enter) => enter_right(r),
        Some(RecordKind::Get) => octets::zero_from(r, 3),
        Some(RecordKind::Put) => zero_but_value(r, 3),
        Some(RecordKind::Leave) => octets::zero_from(r, 2),
        Some(RecordKind::Add) => zero_but_value(r, 3),
        Some(RecordKind::Value) => value_right(r),
        None => false,
    }
}

// The stage after a size record that is right: it comes first.
fn after_size(t: Stage, r: &[u8]) -> Result<Stage, Refusal>
    ensures { Reads result (placed at_first (stage_of t) r.now) }
{
    match t.part {
        Part::Nothing => Ok(Stage {
            part: Part::Edges,
            size: octets::number2(r, 1) as u16,
            next: t.next,
        }),
        _ => Err(Refusal::Malformed),
    }
}

// The stage after an edge that is right: it follows the size record and edges.
fn after_edge(t: Stage) -> Result<Stage, Refusal>
    ensures { (r : List ℕ) → Reads result (placed among_edges (stage_of t) r) }
{
    match t.part {
        Part::Edges => Ok(t),
        _ => Err(Refusal::Malformed),
    }
}

// The stage after a value that is right: it follows the edges and values of lower nodes, and its node is below n.
fn after_value(t: Stage, r: &[u8]) -> Result<Stage, Refusal>
    ensures { Reads result (placed among_values (stage_of t) r.now) }
{
    let node = u16::from(octets::byte(r, 1));
    match t.part {
        Part::Edges | Part::Values if t.next <= node && node < t.size => Ok(Stage {
            part: Part::Values,
            size: t.size,
            next: node + 1,
        }),
        _ => Err(Refusal::Malformed),
    }
}

// The stage after a step that is right: it follows the size record, edges, values and steps.
fn after_step(t: Stage) -> Result<Stage, Refusal>
    ensures { (r : List ℕ) → Reads result (placed among_steps (stage_of t) r) }
{
    match t.part {
        Part::Nothing => Err(Refusal::Malformed),
        _ => Ok(Stage {
            part: Part::Steps,
            size: t.size,
            next: t.next,
        }),
    }
}

// The stage after one record: one that is right leads on by its kind's place.
fn after_record(t: Stage, r: &[u8]) -> Result<Stage, Refusal>
    ensures { Reads result (after_record (stage_of t) r.now) }
{
    let Some(kind) = kind_in(r) else {
        return Err(Refusal::Malformed);
    };
    if !record_right(r) {
        return Err(Refusal::Malformed);
    }
    match kind {
        RecordKind::Size => after_size(t, r),
        RecordKind::Edge => after_edge(t),
        RecordKind::Value => after_value(t, r),
        _ => after_step(t),
    }
}

// The stage after n records.
fn after_records(t: Stage, s: &[u8], n: usize) -> Result<Stage, Refusal>
    requires { 16 * n ≤ length s.now }
    ensures { Reads result (after_records (stage_of t) n s.now) }
{
    let mut reached = t;
    for record in s[..RECORD * n].chunks_exact(RECORD) {
        reached = after_record(reached, record)?;
    }
    Ok(reached)
}

// Whether a block may hold n records.
#[tactic(auto, unfolding(crate::specs::Block::count_right))]
fn count_right(last: bool, n: u32) -> bool
    ensures { result ≡ count_right last n }
{
    1 <= n && n <= MOST && (last || n == MOST)
}

// Whether a block's number, count and unused bytes are right.
#[tactic(auto, unfolding(crate::specs::Block::head_right))]
fn head_right(number: u32, last: bool, block: &[u8]) -> bool
    ensures { result ≡ head_right number last block.now }
{
    let n = octets::number2(block, 4);
    octets::number4(block, 0) == number
        && count_right(last, n)
        && octets::number2(block, 6) == 0
        && octets::zero_between(block, HEAD + RECORD * (n as usize), CHECK)
}

// The stage after a block of 512 bytes: 3 where the check differs, before 4 where anything else is wrong.
fn after_block(number: u32, last: bool, t: Stage, block: &[u8]) -> Result<Stage, Refusal>
    requires { length block.now ≡ 512 }
    ensures { Reads result (after_block number last (stage_of t) block.now) }
{
    let computed = octets::block_check(&block[..CHECK]);
    if octets::number4(block, CHECK) != computed {
        return Err(Refusal::CheckDiffers);
    }
    if !head_right(number, last, block) {
        return Err(Refusal::Malformed);
    }
    after_records(t, &block[HEAD..], octets::number2(block, 4) as usize)
}

// The stage after k blocks.
fn after_blocks(file: &[u8], k: usize) -> Result<Stage, Refusal>
    requires { (512 * k ≤ length file.now) × (k ≤ 128) }
    ensures { Reads result (after_blocks k 0 begun file.now) }
{
    let mut reached = BEGUN;
    for i in 0..k {
        let at = BLOCK * i;
        reached = after_block(i as u32, i + 1 == k, reached, &file[at..at + BLOCK])?;
    }
    Ok(reached)
}

// Writes the records of a block from a place of the room on, and answers how many bytes these are.
fn copy_block(block: &[u8], at: usize, room: &mut [u8]) -> usize
    requires { (length block.now ≡ 512) × (count_in block.now ≤ 31) × (at + 496 ≤ length room.old) }
    ensures { (result ≡ length (records_in block.now)) × (result ≤ 496) × (room.new ≡ over_at at (records_in block.now) room.old) }
{
    let n = RECORD * (octets::number2(block, 4) as usize);
    let end = HEAD + n;
    octets::copy_at(&block[HEAD..end], at, room);
    n
}

// Writes the records of k blocks, and answers how many bytes these are.
fn copy_records(file: &[u8], k: usize, room: &mut [u8]) -> usize
    requires { (length file.now ≡ 512 * k) × (k ≤ 128) × (496 * k ≤ length room.old) × ((after_blocks k 0 begun file.now).wrong ≡ 0) }
    ensures { (result ≡ length (records_of k file.now)) × (room.new ≡ over (records_of k file.now) room.old) }
{
    let mut to = 0;
    for i in 0..k {
        let at = BLOCK * i;
        to += copy_block(&file[at..at + BLOCK], to, room);
    }
    to
}

// Whether a file is not 1 to 128 whole blocks.
#[tactic(auto, unfolding(crate::specs::File::not_blocks))]
fn not_blocks(file: &[u8]) -> bool
    ensures { result ≡ not_blocks file.now }
{
    let k = file.len() / BLOCK;
    file.len() % BLOCK != 0 || k < 1 || k > 128
}

// Reads a file: the whole of it is judged, then its records go to the front of the room. Answers how many records these are.
pub fn read(file: &[u8], room: &mut [u8]) -> Result<usize, Refusal>
    ensures { (meaning result ≡ (read_file file.now room.old).answer) × (room.new ≡ (read_file file.now room.old).room) }
{
    let k = file.len() / BLOCK;
    if room.len() < FULL * k {
        return Err(Refusal::Short);
    }
    if not_blocks(file) {
        return Err(Refusal::NotBlocks);
    }
    after_blocks(file, k)?;
    Ok(copy_records(file, k, room) / RECORD)
}

// WRITING. Writes the block of given records; the count in bytes 4 and 5 and the zeros in 6 and 7 are one number.
fn write_block(number: u32, records: &[u8], block: &mut [u8])
    requires { (length block.old ≡ 512) × (length records.now ≤ 496) }
    ensures { block.new ≡ block_of number records.now }
{
    let n = records.len();
    octets::put4(number, 0, block);
    octets::put4((n / RECORD) as u32, 4, block);
    octets::copy_at(records, HEAD, block);
    octets::put_zeros(CHECK - (HEAD + n), HEAD + n, block);
    let check = octets::block_check(&block[..CHECK]);
    octets::put4(check, CHECK, block);
}

// Writes the k blocks of records, 31 to a block.
fn write_blocks(records: &[u8], k: usize, room: &mut [u8])
    requires { (512 * k ≤ length room.old) × (k ≤ 128) × (length records.now ≤ 496 * k) × (496 * k < length records.now + 496) }
    ensures { room.new ≡ over (blocks_of k 0 records.now) room.old }
{
    for i in 0..k {
        let at = BLOCK * i;
        let from = FULL * i;
        let to = (from + FULL).min(records.len());
        write_block(i as u32, &records[from..to], &mut room[at..at + BLOCK]);
    }
}

// Writes records as a file: they are judged, then the blocks go to the front of the room. Answers how many blocks these are.
pub fn write(records: &[u8], count: usize, room: &mut [u8]) -> Result<usize, Refusal>
    ensures { (meaning result ≡ (write_file records.now count room.old).answer) × (room.new ≡ (write_file records.now count room.old).room) }
{
    if records.len() / RECORD < count {
        return Err(Refusal::Short);
    }
    let k = count.div_ceil(31);
    if room.len() < BLOCK * k {
        return Err(Refusal::Short);
    }
    if count > 3968 {
        return Err(Refusal::NotBlocks);
    }
    if count < 1 {
        return Err(Refusal::Malformed);
    }
    after_records(BEGUN, records, count)?;
    let end = RECORD * count;
    write_blocks(&records[..end], k, room);
    Ok(k)
}
