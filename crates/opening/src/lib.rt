// Opening a file: its records, its edge table and its intervals into lent places.
#![tactic(auto)]

ghost use Rattle.std.specs.Prelude.{◌≡◌, ◌*◌, ◌/◌, ◌≤◌, length};
ghost use Rattle.lists.specs.Lists.{over};
ghost use Rattle.replay.specs.Replay.{record_list, step_records};
ghost use Rattle.opening.specs.Opening.{open_file, Opens};
ghost use Rattle.opening.specs.Inner.{HierarchyOpened, RecordsOpened, FileOpened};

use blocks::RECORD;
use hierarchy::EdgeTable;
use refusals::Refusal;

// A file has at most 65,536 bytes.
pub const FILE_BYTES: usize = 65536;

// Its records have at most 63,488 bytes.
pub const RECORD_BYTES: usize = 63488;

// Its edge table has at most 7,936 numbers, two for each edge.
pub const EDGE_PLACES: usize = 7936;

// Its intervals are at most 512 numbers, two for each record of the hierarchy.
pub const INTERVAL_PLACES: usize = 512;

// What an opened file has.
#[derive(Clone, Copy)]
pub struct Opened {
    // The nodes of its hierarchy.
    pub n: usize,
    // Its edges.
    pub edge_count: usize,
    // Its records.
    pub total: usize,
}

// Builds the hierarchy of an open file.
fn open_hierarchy(
    n: usize,
    edges: &EdgeTable<'_>,
    total: usize,
    places: &mut [u16],
) -> Result<Opened, Refusal>
    requires { (length edges.now.numbers.now ≡ 2 * edges.now.count) × (512 ≤ length places.old) }
    ensures { HierarchyOpened n edges.now.numbers.now edges.now.count total places.old places.new result }
{
    if n > hierarchy::NODES {
        return Err(Refusal::SizeWrong);
    }
    let mut scratch = [0u8; intervals::SCRATCH];
    intervals::build(n, edges, places, &mut scratch)?;
    Ok(Opened {
        n,
        edge_count: edges.count,
        total,
    })
}

// Takes the edges of a file's records, and builds its hierarchy.
fn open_records(
    records: &[u8],
    total: usize,
    edges: &mut [u16],
    places: &mut [u16],
) -> Result<Opened, Refusal>
    requires { (length records.now ≤ 63488) × (7936 ≤ length edges.old) × (512 ≤ length places.old) }
    ensures { RecordsOpened (record_list records.now) total edges.old places.old edges.new places.new result }
{
    let n = replay::size(records);
    let count = replay::edges(records, edges)?;
    let end = 2 * count;
    let numbers = &edges[..end];
    open_hierarchy(n, &EdgeTable { numbers, count }, total, places)
}

// Opens a file that is no longer than 128 blocks, into places that are long enough. Records and edges are written even where the hierarchy is refused.
fn open_file(
    file: &[u8],
    records: &mut [u8],
    edges: &mut [u16],
    places: &mut [u16],
) -> Result<Opened, Refusal>
    requires { (length file.now ≤ 65536) × (63488 ≤ length records.old) × (7936 ≤ length edges.old) × (512 ≤ length places.old) }
    ensures { FileOpened file.now records.old edges.old places.old result records.new edges.new places.new }
{
    let total = blocks::read(file, records)?;
    let end = RECORD * total;
    open_records(&records[..end], total, edges, places)
}

// Writes the records and the edge table of an opened file over the first of the lent places.
fn hand_over(read: &[u8], table: &[u16], records: &mut [u8], edges: &mut [u16])
    requires { (length read.now ≤ length records.old) × (length table.now ≤ length edges.old) }
    ensures { (records.new ≡ over read.now records.old) × (edges.new ≡ over table.now edges.old) }
{
    records[..read.len()].copy_from_slice(read);
    edges[..table.len()].copy_from_slice(table);
}

// Opens a file apart from the lent records and edges, and writes them only where it is not refused.
fn open_apart(
    file: &[u8],
    records: &mut [u8],
    edges: &mut [u16],
    places: &mut [u16],
) -> Result<Opened, Refusal>
    requires { (length file.now ≤ 65536) × (63488 ≤ length records.old) × (7936 ≤ length edges.old) × (512 ≤ length places.old) }
    ensures { Opens result records.new edges.new places.new (open_file file.now records.old edges.old places.old) }
{
    let mut read = [0u8; RECORD_BYTES];
    let mut table = [0u16; EDGE_PLACES];
    let opened = open_file(file, &mut read, &mut table, places)?;
    let bytes = RECORD * opened.total;
    let numbers = 2 * opened.edge_count;
    hand_over(&read[..bytes], &table[..numbers], records, edges);
    Ok(opened)
}

// Opens a file: its records, its edge table and its intervals go into the lent places. A refusal changes nothing.
pub fn open_run(
    file: &[u8],
    records: &mut [u8],
    edges: &mut [u16],
    places: &mut [u16],
) -> Result<Opened, Refusal>
    ensures { Opens result records.new edges.new places.new (open_file file.now records.old edges.old places.old) }
{
    if records.len() < RECORD_BYTES || edges.len() < EDGE_PLACES || places.len() < INTERVAL_PLACES {
        return Err(Refusal::Short);
    }
    if file.len() > FILE_BYTES {
        return Err(Refusal::NotBlocks);
    }
    open_apart(file, records, edges, places)
}

// How many steps there are.
pub fn step_count(records: &[u8]) -> usize
    ensures { (result ≡ length (step_records (record_list records.now))) × (result ≤ length records.now / 16) }
{
    let mut count = 0;
    for bytes in records.chunks_exact(RECORD) {
        count += usize::from(blocks::step_kind(octets::byte(bytes, 0)));
    }
    count
}
