// The documents' cases of block files that must be seen from running code. Standard input has a line for each; each is written out again with what the code
// answers. A line's first letter says what it does, and its numbers are all that is taken from the rest. The records stay from line to line.
#![tactic(auto)]

ghost use Rattle.std.specs.Prelude.{◌≡◌, ◌≤◌, length};

use std::io::Write;

// LINES. A number with one digit more; 0 where ten times the number is no usize.
fn with_digit(value: usize, digit: u8) -> usize {
    value
        .checked_mul(10)
        .map_or(0, |tens| tens.wrapping_add(usize::from(digit % 16)))
}

// The number with so many before it in a line; 0 behind the last.
fn number(line: &[u8], k: usize) -> usize {
    line.split(|b| !b.is_ascii_digit())
        .filter(|digits| !digits.is_empty())
        .nth(k)
        .map_or(
            0,
            |digits| digits.iter().fold(0, |value, b| with_digit(value, *b)),
        )
}

// The same number where it is at most another, or else that other.
fn size(line: &[u8], k: usize, most: usize) -> usize
    ensures { result ≤ most }
{
    number(line, k).min(most)
}

// Says a word, then a number.
fn say<W: Write>(out: &mut W, word: &[u8], k: usize) {
    let _ = streams::write_all(out, word);
    let _ = streams::print_decimal(out, k as u64);
}

// FILES. 129 blocks of a byte.
fn large(x: u8) -> [u8; 66048]
    ensures { 66048 ≡ length result }
{
    [x; 66048]
}

// Writes the line's 16 numbers behind two, over and over, into the records from a place up to another.
fn store(line: &[u8], records: &mut [u8]) {
    let from = number(line, 0);
    for i in from..size(line, 1, records.len()) {
        records[i] = (number(line, 2 + (i - from) % 16) % 256) as u8;
    }
}

// A part of some bytes: the first so many, or all where there are fewer.
fn head(bytes: &[u8], k: usize) -> &[u8] {
    bytes.get(..k).unwrap_or(bytes)
}

// Says the check of some bytes.
fn say_check<W: Write>(out: &mut W, bytes: &[u8]) {
    let _ = streams::write_all(out, b", check ");
    let _ = streams::print_hex(out, octets::block_check(bytes));
}

// Writes so many records out of so many bytes into so many of a file.
fn write<W: Write>(out: &mut W, line: &[u8], records: &[u8], file: &mut [u8]) {
    let count = number(line, 0);
    let held = head(records, number(line, 1));
    let room = size(line, 2, file.len());
    match blocks::write(held, count, &mut file[..room]) {
        Ok(k) => say(out, b": blocks ", k),
        Err(k) => say(out, b": refused ", usize::from(k.number())),
    }
}

// Reads so many bytes of the file into so many of the records.
fn read<W: Write>(out: &mut W, line: &[u8], file: &[u8], records: &mut [u8]) {
    let held = head(file, number(line, 4));
    let room = size(line, 5, records.len());
    match blocks::read(held, &mut records[..room]) {
        Ok(k) => say(out, b"; records ", k),
        Err(k) => say(out, b"; refused ", usize::from(k.number())),
    }
}

// Writes records into zeros, puts zeros over so many bytes of the records, and reads them back.
fn file_line<W: Write>(out: &mut W, line: &[u8], records: &mut [u8]) {
    let mut file = large(0);
    write(out, line, records, &mut file);
    say_check(out, &file);
    octets::put_zeros(number(line, 3), 0, records);
    read(out, line, &file, records);
    say_check(out, records);
}

// ALL LINES. What a line asks for.
fn answer<W: Write>(out: &mut W, line: &[u8], records: &mut [u8]) {
    match octets::byte(line, 0) {
        b'R' => store(line, records),
        b'w' => file_line(out, line, records),
        _ => {}
    }
}

// Each line is written out, then what it asks for is done.
// Kept: a place counted by hand, since the contract of `line_end` says where a line ends; a chain over std's `split_inclusive` left that to no contract.
fn run<W: Write>(out: &mut W, text: &[u8]) {
    let mut records = large(9);
    let mut at = 0;
    while at < text.len() {
        let end = streams::line_end(text, at);
        let line = &text[at..end];
        at = end + 1;
        let _ = streams::write_all(out, line);
        answer(out, line, &mut records);
        let _ = streams::write_all(out, b"\n");
    }
}

// Reads the lines, and runs them.
fn main(rt: HostRuntime) {
    let mut text = [0u8; 65536];
    let n = streams::read_full(&mut rt.stdin(), &mut text);
    run(&mut rt.stdout(), &text[..n]);
}
