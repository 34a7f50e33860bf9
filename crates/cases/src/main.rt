// The documents' cases of building, also in the plain way, covers and reach that must be seen from running code. Standard input has a line for each; each is written out again with
// what the code answers. A line's first letter says what it does, and its numbers are all that is taken from the rest.
#![tactic(auto)]

ghost use Rattle.std.specs.Prelude.{◌≤◌};

use hierarchy::EdgeTable;
use refusals::Refusal;
use std::io::Write;

// LINES. A number with one digit more; 0 where ten times the number is no usize.
fn with_digit(value: usize, digit: u8) -> usize {
    value
        .checked_mul(10)
        .map_or(0, |tens| tens.wrapping_add(usize::from(digit % 16)))
}

// The number with so many before it in a line; 0 behind the last.
fn number(line: &[u8], k: usize) -> usize {
    line.split(|b| !b.is_ascii_digit())
        .filter(|digits| !digits.is_empty())
        .nth(k)
        .map_or(
            0,
            |digits| digits.iter().fold(0, |value, b| with_digit(value, *b)),
        )
}

// The same number where it is at most another, or else that other.
fn size(line: &[u8], k: usize, most: usize) -> usize
    ensures { result ≤ most }
{
    number(line, k).min(most)
}

// Says a word, then a number.
fn say<W: Write>(out: &mut W, word: &[u8], k: usize) {
    let _ = streams::write_all(out, word);
    let _ = streams::print_decimal(out, k as u64);
}

// Says what a buffer holds: so many of a byte, then so many of the next.
fn say_bytes<W: Write>(out: &mut W, bytes: &[u8]) {
    for run in bytes.chunk_by(|a, b| a == b) {
        say(out, b", ", run.len());
        say(out, b" of ", usize::from(octets::byte(run, 0)));
    }
}

// HIERARCHIES. What stands at place i of a table: where d is 0, the line's number i behind its first; or else the table has edges from each node to each
// of the next d, on a ring of 255 nodes that leaves the root out.
fn entry(line: &[u8], first: usize, d: usize, i: usize) -> u16 {
    if d == 0 {
        return (number(line, first.wrapping_add(i)) % 65536) as u16;
    }
    let parent = i / 2 / d % 256;
    if i % 2 == 0 {
        return parent as u16;
    }
    (1 + (parent + i / 2 % d % 256) % 255) as u16
}

// Fills a table.
fn fill(line: &[u8], first: usize, d: usize, table: &mut [u16]) {
    for (i, place) in table.iter_mut().enumerate() {
        *place = entry(line, first, d, i);
    }
}

// A part of a table: its first numbers, or all where it has fewer.
fn front(table: &[u16], k: usize) -> &[u16] {
    table.get(..k).unwrap_or(table)
}

// Says the intervals of the line's nodes, from one up to another.
fn say_intervals<W: Write>(out: &mut W, line: &[u8], places: &[u16]) {
    for node in number(line, 5)..number(line, 6) {
        let i = covers::interval_at(places, node);
        say(out, b", ", usize::from(i.low));
        say(out, b" ", usize::from(i.high));
    }
}

// Says what building answers.
fn say_built<W: Write>(out: &mut W, answer: Result<(), Refusal>) {
    match answer {
        Ok(()) => {
            let _ = streams::write_all(out, b": built");
        }
        Err(refusal) => say(out, b": refused ", usize::from(refusal.number())),
    }
}

// Builds with so many nodes, places, edges and bytes of scratch; says what that leaves in places and scratch.
fn build<W: Write>(
    out: &mut W,
    line: &[u8],
    numbers: &[u16],
    places: &mut [u16],
    scratch: &mut [u8],
) {
    let n = number(line, 0);
    let edges = EdgeTable {
        numbers,
        count: number(line, 3),
    };
    let held = size(line, 1, places.len());
    let room = size(line, 4, scratch.len());
    say_built(
        out,
        intervals::build(n, &edges, &mut places[0..held], &mut scratch[0..room]),
    );
    say_intervals(out, line, places);
    say_bytes(out, scratch);
}

// Builds over so many numbers of the line's edges, or of edges to the next nodes, with places of 7 and scratch of 9.
fn build_line<W: Write>(out: &mut W, line: &[u8]) {
    let mut edges = [0u16; 2050];
    fill(line, 8, number(line, 7), &mut edges);
    let ends = front(&edges, number(line, 2));
    let mut places = [7u16; 516];
    let mut scratch = [9u8; 2050];
    build(out, line, ends, &mut places, &mut scratch);
}

// Says what stands at a place of the words.
fn say_word<W: Write>(out: &mut W, words: &[u64], i: usize) {
    if let Some(word) = words.get(i) {
        say(out, b", ", *word as usize);
    }
}

// Builds in the plain way with so many nodes, places, edges and words; says what that leaves in places, in the first word and the last that may be used,
// and in the one behind it.
fn build_plain<W: Write>(
    out: &mut W,
    line: &[u8],
    numbers: &[u16],
    places: &mut [u16],
    words: &mut [u64],
) {
    let n = number(line, 0);
    let edges = EdgeTable {
        numbers,
        count: number(line, 3),
    };
    let held = size(line, 1, places.len());
    let room = size(line, 4, words.len());
    say_built(
        out,
        reach_sets::build(n, &edges, &mut places[0..held], &mut words[0..room]),
    );
    say_intervals(out, line, places);
    say_word(out, words, 0);
    say_word(out, words, 1023);
    say_word(out, words, 1024);
}

// The same over the line's edges, with places of 7 and words of 9.
fn plain_line<W: Write>(out: &mut W, line: &[u8]) {
    let mut edges = [0u16; 2050];
    fill(line, 8, number(line, 7), &mut edges);
    let ends = front(&edges, number(line, 2));
    let mut places = [7u16; 516];
    let mut words = [9u64; 1026];
    build_plain(out, line, ends, &mut places, &mut words);
}

// Says the cover by n, so many places of the line's table, and so many of its two names.
fn cover_line<W: Write>(out: &mut W, line: &[u8]) {
    let mut names = [0u16; 2];
    let mut table = [0u16; 20];
    fill(line, 3, 0, &mut names);
    fill(line, 5, 0, &mut table);
    let named = front(&names, number(line, 2));
    let held = front(&table, number(line, 1));
    say(out, b": ", covers::cover(number(line, 0), held, named));
}

// Says whether a node is in the reach of 3 or of 6, of ten nodes with the line's eleven edges, and what that leaves in flags of 9.
fn reach_line<W: Write>(out: &mut W, line: &[u8]) {
    let mut edges = [0u16; 22];
    let mut flags = [9u8; 10];
    fill(line, 3, 0, &mut edges);
    let table = EdgeTable {
        numbers: &edges,
        count: 11,
    };
    let found = hierarchy::in_reach(&table, &[3, 6], number(line, 2), &mut flags);
    say(out, b": ", usize::from(found));
    say_bytes(out, &flags);
}

// ALL LINES. What a line asks for.
fn answer<W: Write>(out: &mut W, line: &[u8]) {
    match octets::byte(line, 0) {
        b'b' => build_line(out, line),
        b'c' => cover_line(out, line),
        b'i' => reach_line(out, line),
        b'p' => plain_line(out, line),
        _ => {}
    }
}

// Each line is written out, then what it asks for is done.
// Kept: a place counted by hand, since the contract of `line_end` says where a line ends; a chain over std's `split_inclusive` left that to no contract.
fn run<W: Write>(out: &mut W, text: &[u8]) {
    let mut at = 0;
    while at < text.len() {
        let end = streams::line_end(text, at);
        let line = &text[at..end];
        at = end + 1;
        let _ = streams::write_all(out, line);
        answer(out, line);
        let _ = streams::write_all(out, b"\n");
    }
}

// Reads the lines, and runs them.
fn main(rt: HostRuntime) {
    let mut text = [0u8; 65536];
    let n = streams::read_full(&mut rt.stdin(), &mut text);
    run(&mut rt.stdout(), &text[..n]);
}
