// Get, put and add called directly: above all what no block file can show, tables, values or scratch too short, all that is refused with 1, 5, 6, 7 or 10, and what is left in values
// and scratch. Standard input has a line for each call; each is written out again with what the desk answers. A line's first letter says what it does. Behind its word stand 22 digits
// of intervals, 22 of edges and 10 of names, then columns of numbers. Desk and values go on from line to line. Besides the three steps there are lines for what they need: enter and
// leave, which say no answer here (`desk_cases` is about them), a desk made by hand, a fresh one, and a line that shows the values.
#![tactic(auto)]

ghost use Rattle.std.specs.Prelude.{◌≡◌, ◌≤◌, length};

use arrivals::PARTIES;
use desk::{Desk, GetAnswer};
use hierarchy::EdgeTable;
use locks::Lent;
use refusals::Refusal;
use std::io::Write;

// The numbers of a line that every step takes, and those that a step has besides: `given` is what put or add is given, `scratch` how many bytes of a scratch are lent.
#[derive(Clone, Copy)]
struct Call {
    n: usize,
    places: usize,
    ends: usize,
    edge_count: usize,
    party: usize,
    lent: usize,
    first: usize,
    second: usize,
    given: u64,
    scratch: usize,
}

// LINES. The number in a column. Columns are five wide; a number has four digits at most, and a space, or what is behind the end, is 0.
fn number(line: &[u8], k: usize) -> usize {
    let four = octets::number4(line, k % 64 * 5 + 63);
    let high = four % 16 * 1000 + four / 256 % 16 * 100;
    let low = four / 65536 % 16 * 10 + four / 16777216 % 16;
    (high + low) as usize
}

// What a line gives to its call. With a 1 behind it, the number for put or add is so many below the largest, which is the number with all its bits turned.
fn taken(line: &[u8]) -> Call {
    let second = number(line, 7);
    let turned = 0u64.wrapping_sub(number(line, 8) as u64);
    Call {
        n: number(line, 0),
        places: number(line, 1),
        ends: number(line, 2),
        edge_count: number(line, 3),
        party: number(line, 4),
        lent: number(line, 5),
        first: number(line, 6),
        second,
        given: turned ^ second as u64,
        scratch: part(number(line, 9), 256, 300),
    }
}

// A table whose first places hold the line's digits of a part, 22 of them over and over. Part 0 is the intervals, 1 the edges, 2 the names.
fn table(line: &[u8], part: usize, count: usize) -> [u16; 2050]
    ensures { 2050 ≡ length result }
{
    let mut places = [0u16; 2050];
    for i in 0..count % 2051 {
        places[i] = u16::from(octets::byte(line, part % 3 * 23 + i % 22 + 6) % 16);
    }
    places
}

// The hierarchy that a line lends.
fn lent<'a>(c: Call, intervals: &'a [u16], edges: &'a [u16]) -> Lent<'a> {
    Lent {
        n: c.n,
        intervals,
        edges: EdgeTable {
            numbers: edges,
            count: c.edge_count,
        },
    }
}

// ANSWERS are said, by the place of their word in `say`. What get answered; 14 is the number of waiting.
fn got<W: Write>(out: &mut W, answer: GetAnswer) {
    match answer {
        GetAnswer::Refused(k) => say(out, 0, u64::from(k.number())),
        GetAnswer::Waiting => say(out, 1, 14),
        GetAnswer::Value(v) => say(out, 2, v),
    }
}

// What put or add answered; with stored or added goes the number that was given.
fn taken_in<W: Write>(out: &mut W, word: usize, answer: Result<(), Refusal>, given: u64) {
    match answer {
        Ok(()) => say(out, word, given),
        Err(k) => say(out, 0, u64::from(k.number())),
    }
}

// Says an answer: its word, then its number.
fn say<W: Write>(out: &mut W, word: usize, number: u64) {
    let words = *b": refused : waiting :   value :  stored :   added : scratch ";
    let at = word % 6 * 10;
    let _ = streams::write_all(out, &words[at..at + 10]);
    let _ = streams::print_decimal(out, number);
}

// How many a line lends of those that there are, as many as usual where it does not say.
fn part(asked: usize, usual: usize, all: usize) -> usize
    ensures { result ≤ all }
{
    let count = if asked == 0 { usual } else { asked };
    count.min(all)
}

// Says how many of the bytes that were lent of a scratch are not 0.
fn say_scratch<W: Write>(out: &mut W, lent: &[u8]) {
    let count = lent.iter().filter(|x| **x != 0).count();
    say(out, 5, count as u64);
}

// STEPS. Enters, with so many names lent, a name count and a mode: 1 reading, 3 adding, any other writing.
fn enter(line: &[u8], c: Call, desk: Desk, tables: &Lent<'_>) -> Desk {
    let lent = c.lent % 11;
    let names = table(line, 2, lent);
    let mode = locks::mode_when(c.second == 1, c.second != 3);
    desk.enter(tables, c.party, mode, &names[..lent], c.first)
        .desk
}

// Leaves, with as many bytes lent as it needs.
fn leave(c: Call, desk: Desk, tables: &Lent<'_>) -> Desk {
    let mut list = [0u8; PARTIES];
    desk.leave(tables, c.party, &mut list).desk
}

// Gets the value of a node. As for put and add, so many bytes are lent of a scratch that holds 7 everywhere, and what is left in them is said behind the answer.
fn get<W: Write>(out: &mut W, c: Call, desk: Desk, tables: &Lent<'_>, values: &[u64]) -> Desk {
    let mut scratch = [7u8; 300];
    let lent = &mut scratch[..c.scratch % 301];
    let step = desk.get(tables, c.party, c.first, values, lent);
    got(out, step.answer);
    say_scratch(out, lent);
    step.desk
}

// Puts a number at a node.
fn put<W: Write>(out: &mut W, c: Call, desk: Desk, tables: &Lent<'_>, values: &mut [u64]) -> Desk {
    let mut scratch = [7u8; 300];
    let lent = &mut scratch[..c.scratch % 301];
    let step = desk.put(tables, c.party, c.first, c.given, values, lent);
    taken_in(out, 3, step.answer, c.given);
    say_scratch(out, lent);
    step.desk
}

// Adds a number at a node.
fn add<W: Write>(out: &mut W, c: Call, desk: Desk, tables: &Lent<'_>, values: &mut [u64]) -> Desk {
    let mut scratch = [7u8; 300];
    let lent = &mut scratch[..c.scratch % 301];
    let step = desk.add(tables, c.party, c.first, c.given, values, lent);
    taken_in(out, 4, step.answer, c.given);
    say_scratch(out, lent);
    step.desk
}

// The desk with another count of waiting parties, and another first one.
fn by_hand(c: Call, desk: Desk) -> Desk {
    let mut d = desk;
    d.waiting = c.lent;
    d.queue[0] = (c.party % 256) as u8;
    d
}

// Says the values that are lent.
fn say_values<W: Write>(out: &mut W, values: &[u64]) {
    for value in values {
        let _ = streams::write_all(out, b" ");
        let _ = streams::print_decimal(out, *value);
    }
}

// ALL LINES. The desk as a line leaves it, with so much of the tables lent.
fn perform<W: Write>(
    out: &mut W,
    line: &[u8],
    c: Call,
    desk: Desk,
    tables: &Lent<'_>,
    values: &mut [u64],
) -> Desk {
    match octets::byte(line, 0) {
        b'e' => enter(line, c, desk, tables),
        b'g' => get(out, c, desk, tables, values),
        b'p' => put(out, c, desk, tables, values),
        b'a' => add(out, c, desk, tables, values),
        b'l' => leave(c, desk, tables),
        b'd' => by_hand(c, desk),
        b'v' => {
            say_values(out, values);
            desk
        }
        b'f' => Desk::fresh(),
        _ => desk,
    }
}

// The same, with the tables made and so many of the values.
fn answer<W: Write>(out: &mut W, line: &[u8], desk: Desk, values: &mut [u64]) -> Desk {
    let c = taken(line);
    let places = c.places % 2051;
    let intervals = table(line, 0, places);
    let ends = c.ends % 2051;
    let edges = table(line, 1, ends);
    let tables = lent(c, &intervals[..places], &edges[..ends]);
    let lent = part(c.lent, 10, values.len());
    perform(out, line, c, desk, &tables, &mut values[..lent])
}

// Each line is written out, then what it asks for is done.
// Kept: a place counted by hand, since the contract of `line_end` says where a line ends; a chain over std's `split_inclusive` left that to no contract.
fn run<W: Write>(out: &mut W, text: &[u8]) {
    let mut desk = Desk::fresh();
    let mut values = [0u64; 257];
    let mut at = 0;
    while at < text.len() {
        let end = streams::line_end(text, at);
        let line = &text[at..end];
        at = end + 1;
        let _ = streams::write_all(out, line);
        desk = answer(out, line, desk, &mut values);
        let _ = streams::write_all(out, b"\n");
    }
}

// Reads the lines, and runs them.
fn main(rt: HostRuntime) {
    let mut text = [0u8; 65536];
    let n = streams::read_full(&mut rt.stdin(), &mut text);
    run(&mut rt.stdout(), &text[..n]);
}
