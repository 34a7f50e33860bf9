// A file listed into lent bytes: its steps performed and their lines put, whole or in pieces.
#![tactic(auto)]

ghost use Rattle.std.specs.Prelude.{◌≡◌, true, ◌*◌, ◌≤◌, length, take};
ghost use Rattle.lists.specs.Lists.{every};
ghost use Rattle.lists.specs.Answer.{done};
ghost use Rattle.locks.specs.Lent.{lent_in};
ghost use Rattle.replay.specs.Replay.{record_list, is_record, step_records, start_of, file_run, perform_all, run_file};
ghost use Rattle.texts.specs.Lines.{listing};
ghost use Rattle.opening.specs.Opening.{opened_run};
ghost use Rattle.lines.specs.Listing.{list_file, Lists};
ghost use Rattle.lines.specs.Pieces.{written_of, record_written, records_written};
ghost use Rattle.lines.specs.Inner.{RunListed, Listing};

use blocks::RECORD;
use desk::Desk;
use hierarchy::EdgeTable;
use locks::Lent;
use refusals::Refusal;

// The values of a file are at most 256.
pub const VALUES: usize = 256;

// Its listing has at most 635,680 bytes.
pub const TEXT_BYTES: usize = 635680;

// Between two steps of a file: the desk, the number of the next step, and the place of its line.
#[derive(Clone, Copy)]
pub struct Progress {
    pub desk: Desk,
    pub number: usize,
    pub at: usize,
}

// One record: of a kind that is no step's, it changes nothing; any other is performed, and its line is put.
fn put_step(
    progress: Progress,
    tables: &Lent<'_>,
    bytes: &[u8],
    values: &mut [u64],
    text: &mut [u8],
) -> Progress
    ensures { written_of (lent_in tables.now) result values.new text.new ≡ record_written (written_of (lent_in tables.now) progress values.old text.old) bytes.now }
{
    if !blocks::step_kind(octets::byte(bytes, 0)) {
        return progress;
    }
    let step = replay::perform(progress.desk, tables, bytes, values);
    let at = texts::put_line(
        progress.number,
        step.outcome,
        &step.parties,
        progress.at,
        text,
    );
    Progress {
        desk: step.desk,
        number: progress.number.saturating_add(1),
        at,
    }
}

// Lists records one after the other: each step is performed, and its line is put. The place of the text may be set back to 0 between two calls.
pub fn put_steps(
    start: Progress,
    tables: &Lent<'_>,
    records: &[u8],
    values: &mut [u64],
    text: &mut [u8],
) -> Progress
    ensures { written_of (lent_in tables.now) result values.new text.new ≡ records_written (written_of (lent_in tables.now) start values.old text.old) (record_list records.now) }
{
    let mut progress = start;
    for bytes in records.chunks_exact(RECORD) {
        progress = put_step(progress, tables, bytes, values, text);
    }
    progress
}

// Runs the steps over a built hierarchy from the values of the records, and puts the lines.
fn list_built(tables: &Lent<'_>, records: &[u8], values: &mut [u64], text: &mut [u8]) -> usize
    requires records_value { every is_record (record_list records.now) ≡ true }
    requires values_len { length values.old ≡ tables.now.n }
    ensures { RunListed (perform_all (start_of (lent_in tables.now) (record_list records.now)) (step_records (record_list records.now))) text.old values.new text.new result }
{
    replay::values(records, values);
    let start = Progress {
        desk: Desk::fresh(),
        number: 1,
        at: 0,
    };
    let last = put_steps(start, tables, records, values, text);
    texts::put_end(last.desk, last.at, text)
}

// Lists an opened file, from the places that it was opened into.
fn list_opened(
    n: usize,
    places: &[u16],
    edges: &[u16],
    edge_count: usize,
    records: &[u8],
    total: usize,
    values: &mut [u64],
    text: &mut [u8],
) -> usize
    requires n_bound { (n ≤ 256) × (2 * edge_count ≤ 7936) × (16 * total ≤ 63488) }
    requires in_bounds { (512 ≤ length places.now) × (7936 ≤ length edges.now) × (63488 ≤ length records.now) × (256 ≤ length values.old) }
    requires records_value { every is_record (record_list (take (16 * total) records.now)) ≡ true }
    ensures { Listing (done (file_run (opened_run n places.now edges.now edge_count records.now total))) values.old text.old values.new text.new result }
{
    let tables = Lent {
        n,
        intervals: &places[..2 * n],
        edges: EdgeTable {
            numbers: &edges[..2 * edge_count],
            count: edge_count,
        },
    };
    list_built(&tables, &records[..RECORD * total], &mut values[..n], text)
}

// Lists a file into places that are long enough.
fn list_file(file: &[u8], values: &mut [u64], text: &mut [u8]) -> usize
    requires { 256 ≤ length values.old }
    ensures { Listing (run_file file.now) values.old text.old values.new text.new result }
{
    let mut records = [0u8; opening::RECORD_BYTES];
    let mut edges = [0u16; opening::EDGE_PLACES];
    let mut places = [0u16; opening::INTERVAL_PLACES];
    match opening::open_run(file, &mut records, &mut edges, &mut places) {
        Err(k) => texts::put_refused(k.number(), text),
        Ok(opened) => {
            list_opened(
                opened.n,
                &places,
                &edges,
                opened.edge_count,
                &records,
                opened.total,
                values,
                text,
            )
        }
    }
}

// Lists a file: runs it, and puts the listing into the text's first bytes and the values after it into the first values.
pub fn listing(file: &[u8], values: &mut [u64], text: &mut [u8]) -> Result<usize, Refusal>
    ensures { Lists result values.new text.new (list_file file.now values.old text.old) }
{
    if values.len() < VALUES || text.len() < TEXT_BYTES {
        return Err(Refusal::Short);
    }
    Ok(list_file(file, values, text))
}
