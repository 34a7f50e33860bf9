// The listing program: one file on standard input, its listing on standard output, written in pieces.
#![tactic(auto)]

ghost use Rattle.std.specs.Prelude.{◌≡◌, ◌*◌, ◌≤◌, length};
ghost use Rattle.locks.specs.Lent.{lent_in};
ghost use Rattle.desk.specs.Desks.{fresh_desk};
ghost use Rattle.replay.specs.Replay.{record_list, values_in};
ghost use Rattle.lines.specs.Pieces.{written_of, anew, records_written, parts_written, end_written, parts_in};

use blocks::RECORD;
use desk::Desk;
use hierarchy::EdgeTable;
use lines::Progress;
use locks::Lent;
use std::io;
use std::io::Write;

// The bytes of a file at most, and one more, which tells that the input is too long.
const FILE: usize = opening::FILE_BYTES + 1;

// The bytes of the records of a piece: 100 records.
const PART: usize = 1600;

// The bytes of its lines at most: 160 for each record.
const TEXT: usize = 10 * PART;

// What is told on standard error where the listing was not written; the exit status stays 0.
const NOT_WRITTEN: &[u8] = b"listing: standard output did not take the whole listing\n";

// Lists a part of the records into the text from its first byte on, and writes the lines: the progress behind them, and whether they were written.
fn write_part<W: Write>(
    out: &mut W,
    progress: Progress,
    tables: &Lent<'_>,
    records: &[u8],
    values: &mut [u64],
    text: &mut [u8],
) -> (Progress, io::Result<()>)
    ensures { written_of (lent_in tables.now) result.0 values.new text.new ≡ records_written (anew (written_of (lent_in tables.now) progress values.old text.old)) (record_list records.now) }
{
    let start = Progress {
        desk: progress.desk,
        number: progress.number,
        at: 0,
    };
    let next = lines::put_steps(start, tables, records, values, text);
    let written = streams::write_all(out, &text[..next.at]);
    (next, written)
}

// Writes the lines of all records, part by part, also behind a part that was not written.
fn write_steps<W: Write>(
    out: &mut W,
    tables: &Lent<'_>,
    records: &[u8],
    values: &mut [u64],
    text: &mut [u8],
) -> (Progress, io::Result<()>)
    ensures { written_of (lent_in tables.now) result.0 values.new text.new ≡ parts_written (written_of (lent_in tables.now) (record { desk = fresh_desk; number = 1; at = 0 }) values.old text.old) (parts_in records.now) }
{
    let mut progress = Progress {
        desk: Desk::fresh(),
        number: 1,
        at: 0,
    };
    let mut written = Ok(());
    for part in records.chunks(PART) {
        let (next, wrote) = write_part(out, progress, tables, part, values, text);
        progress = next;
        written = written.and(wrote);
    }
    (progress, written)
}

// Writes the listing of an open file, from the values of its records on.
fn write_run<W: Write>(
    out: &mut W,
    tables: &Lent<'_>,
    records: &[u8],
    values: &mut [u64],
    text: &mut [u8],
) -> io::Result<()>
    ensures values_after { values.new ≡ (parts_written (written_of (lent_in tables.now) (record { desk = fresh_desk; number = 1; at = 0 }) (values_in (length values.old) (record_list records.now)) text.old) (parts_in records.now)).state.values }
    ensures text_after { text.new ≡ (end_written (parts_written (written_of (lent_in tables.now) (record { desk = fresh_desk; number = 1; at = 0 }) (values_in (length values.old) (record_list records.now)) text.old) (parts_in records.now))).text }
{
    replay::values(records, values);
    let (last, written) = write_steps(out, tables, records, values, text);
    let at = texts::put_end(last.desk, 0, text);
    let ended = streams::write_all(out, &text[..at]);
    written.and(ended)
}

// Writes the listing of an opened file, from the places that it was opened into.
fn write_opened<W: Write>(
    out: &mut W,
    n: usize,
    places: &[u16],
    edges: &[u16],
    edge_count: usize,
    records: &[u8],
    total: usize,
    values: &mut [u64],
    text: &mut [u8],
) -> io::Result<()>
    requires n_bound { (n ≤ 256) × (2 * edge_count ≤ 7936) × (16 * total ≤ 63488) }
    requires in_bounds { (512 ≤ length places.now) × (7936 ≤ length edges.now) × (63488 ≤ length records.now) × (256 ≤ length values.old) }
{
    let tables = Lent {
        n,
        intervals: &places[..2 * n],
        edges: EdgeTable {
            numbers: &edges[..2 * edge_count],
            count: edge_count,
        },
    };
    write_run(
        out,
        &tables,
        &records[..RECORD * total],
        &mut values[..n],
        text,
    )
}

// Writes the one line of a refused file.
fn write_refused<W: Write>(out: &mut W, k: u8, text: &mut [u8]) -> io::Result<()> {
    let at = texts::put_refused(k, text);
    streams::write_all(out, &text[..at])
}

// Reads the file, opens it, and writes its listing.
fn main(rt: HostRuntime) {
    let mut file = [0u8; FILE];
    let got = streams::read_full(&mut rt.stdin(), &mut file);
    let mut records = [0u8; opening::RECORD_BYTES];
    let mut edges = [0u16; opening::EDGE_PLACES];
    let mut places = [0u16; opening::INTERVAL_PLACES];
    let answer = opening::open_run(&file[..got], &mut records, &mut edges, &mut places);
    let mut values = [0u64; lines::VALUES];
    let mut text = [0u8; TEXT];
    let mut out = rt.stdout();
    let written = match answer {
        Err(k) => write_refused(&mut out, k.number(), &mut text),
        Ok(opened) => {
            write_opened(
                &mut out,
                opened.n,
                &places,
                &edges,
                opened.edge_count,
                &records,
                opened.total,
                &mut values,
                &mut text,
            )
        }
    };
    let _ = streams::tell(&mut rt.stderr(), written, NOT_WRITTEN);
}
