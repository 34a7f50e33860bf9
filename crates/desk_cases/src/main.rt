// Enter and leave called directly: above all what no block file can show, nine names or none, tables or a list too short, all that is refused with 1, 5, 6, 7 or 10, and counts of
// grants at their stop. Standard input has a line for each call; each is written out again with what the desk answers. A line's first letter says what it does. Behind its word stand
// 22 digits of intervals, 22 of edges and 10 of names, then columns of numbers. The desk goes on from line to line. Besides the two steps there are lines that make the desk by hand,
// and one that shows what a listing has after its steps. Get, put and add are in `value_cases`.
#![tactic(auto)]

ghost use Rattle.std.specs.Prelude.{length, ◌≡◌};

use arrivals::PARTIES;
use desk::{Desk, EnterAnswer};
use hierarchy::EdgeTable;
use locks::Lent;
use refusals::Refusal;
use std::io::Write;

// The numbers of a line that both steps take; how many names or bytes are lent, and of enter the name count and the mode.
#[derive(Clone, Copy)]
struct Call {
    n: usize,
    places: usize,
    ends: usize,
    edge_count: usize,
    party: usize,
    lent: usize,
    name_count: usize,
    mode: usize,
}

// LINES. The number in a column. Columns are five wide; a number has four digits at most, and a space, or what is behind the end, is 0.
fn number(line: &[u8], k: usize) -> usize {
    let four = octets::number4(line, k % 64 * 5 + 63);
    let high = four % 16 * 1000 + four / 256 % 16 * 100;
    let low = four / 65536 % 16 * 10 + four / 16777216 % 16;
    (high + low) as usize
}

// What a line gives to its call.
fn taken(line: &[u8]) -> Call {
    Call {
        n: number(line, 0),
        places: number(line, 1),
        ends: number(line, 2),
        edge_count: number(line, 3),
        party: number(line, 4),
        lent: number(line, 5),
        name_count: number(line, 6),
        mode: number(line, 7),
    }
}

// A table whose first places hold the line's digits of a part, 22 of them over and over. Part 0 is the intervals, 1 the edges, 2 the names.
fn table(line: &[u8], part: usize, count: usize) -> [u16; 2050]
    ensures { 2050 ≡ length result }
{
    let mut places = [0u16; 2050];
    for i in 0..count % 2051 {
        places[i] = u16::from(octets::byte(line, part % 3 * 23 + i % 22 + 6) % 16);
    }
    places
}

// The hierarchy that a line lends.
fn lent<'a>(c: Call, intervals: &'a [u16], edges: &'a [u16]) -> Lent<'a> {
    Lent {
        n: c.n,
        intervals,
        edges: EdgeTable {
            numbers: edges,
            count: c.edge_count,
        },
    }
}

// ANSWERS are said, by the place of their word in `say`. What enter answered; with waiting goes how many wait.
fn entered<W: Write>(out: &mut W, answer: EnterAnswer, waiting: usize) {
    match answer {
        EnterAnswer::Waits => say(out, 0, waiting as u64),
        EnterAnswer::Refused(k) => say_refused(out, k),
        EnterAnswer::Granted(cover) => say(out, 2, cover as u64),
    }
}

// What leave answered: the count of the granted.
fn left<W: Write>(out: &mut W, answer: Result<usize, Refusal>) {
    match answer {
        Err(k) => say_refused(out, k),
        Ok(count) => say(out, 3, count as u64),
    }
}

// A refusal, by its number.
fn say_refused<W: Write>(out: &mut W, k: Refusal) {
    say(out, 1, u64::from(k.number()));
}

// Says an answer: its word, then its number.
fn say<W: Write>(out: &mut W, word: usize, number: u64) {
    let words = *b":   waits : refused : granted :    left ";
    let at = word % 4 * 10;
    let _ = streams::write_all(out, &words[at..at + 10]);
    let _ = streams::print_decimal(out, number);
}

// Says what a list holds.
fn say_list<W: Write>(out: &mut W, list: &[u8; 34]) {
    for x in list {
        let _ = streams::write_all(out, b" ");
        let _ = streams::print_decimal(out, u64::from(*x));
    }
}

// STEPS. Enters, with so many names lent, a name count and a mode: 1 reading, 3 adding, any other writing.
fn enter<W: Write>(out: &mut W, line: &[u8], c: Call, desk: Desk, tables: &Lent<'_>) -> Desk {
    let lent = c.lent % 11;
    let names = table(line, 2, lent);
    let mode = locks::mode_when(c.mode == 1, c.mode != 3);
    let step = desk.enter(tables, c.party, mode, &names[..lent], c.name_count);
    entered(out, step.answer, step.desk.waiting);
    step.desk
}

// Leaves, with so many bytes lent of a list that holds 9 everywhere; says the list, then the count of the granted.
fn leave<W: Write>(out: &mut W, c: Call, desk: Desk, tables: &Lent<'_>) -> Desk {
    let mut list = [9u8; 34];
    let lent = c.lent % 35;
    let step = desk.leave(tables, c.party, &mut list[..lent]);
    say_list(out, &list);
    left(out, step.answer);
    step.desk
}

// The desk with another count of waiting parties, and another first one.
fn by_hand(c: Call, desk: Desk) -> Desk {
    let mut d = desk;
    d.waiting = c.lent;
    d.queue[0] = (c.party % 256) as u8;
    d
}

// The desk with another count of grants, so many below the largest number: of a party, or of all for a number over 31.
fn counts(c: Call, desk: Desk) -> Desk {
    let count = u32::MAX - (c.lent % 65536) as u32;
    let mut d = desk;
    if c.party < PARTIES {
        d.grants[c.party] = count;
    } else {
        d.grants.fill(count);
    }
    d
}

// Says the lines that a listing has after its steps, behind the end of this one: holders, waiters and grants, and each party's grants. They are shorter than 800 bytes.
fn show<W: Write>(out: &mut W, desk: Desk) -> Desk {
    let mut text = [b'\n'; 800];
    let end = texts::put_end(desk, 1, &mut text) % 801;
    let _ = streams::write_all(out, &text[..end]);
    desk
}

// ALL LINES. The desk as a line leaves it, with so much of the tables lent.
fn perform<W: Write>(out: &mut W, line: &[u8], c: Call, desk: Desk, tables: &Lent<'_>) -> Desk {
    match octets::byte(line, 0) {
        b'e' => enter(out, line, c, desk, tables),
        b'l' => leave(out, c, desk, tables),
        b'd' => by_hand(c, desk),
        b'c' => counts(c, desk),
        b's' => show(out, desk),
        b'f' => Desk::fresh(),
        _ => desk,
    }
}

// The same, with the tables made.
fn answer<W: Write>(out: &mut W, line: &[u8], desk: Desk) -> Desk {
    let c = taken(line);
    let places = c.places % 2051;
    let intervals = table(line, 0, places);
    let ends = c.ends % 2051;
    let edges = table(line, 1, ends);
    let tables = lent(c, &intervals[..places], &edges[..ends]);
    perform(out, line, c, desk, &tables)
}

// Each line is written out, then what it asks for is done.
// Kept: a place counted by hand, since the contract of `line_end` says where a line ends; a chain over std's `split_inclusive` left that to no contract.
fn run<W: Write>(out: &mut W, text: &[u8]) {
    let mut desk = Desk::fresh();
    let mut at = 0;
    while at < text.len() {
        let end = streams::line_end(text, at);
        let line = &text[at..end];
        at = end + 1;
        let _ = streams::write_all(out, line);
        desk = answer(out, line, desk);
        let _ = streams::write_all(out, b"\n");
    }
}

// Reads the lines, and runs them.
fn main(rt: HostRuntime) {
    let mut text = [0u8; 65536];
    let n = streams::read_full(&mut rt.stdin(), &mut text);
    run(&mut rt.stdout(), &text[..n]);
}
