// The lines of a listing and of the report, put into lent bytes as far as they fit: numbers, words, a step's line, the lines after the steps.
#![tactic(auto)]

ghost use Rattle.std.specs.Prelude.{◌≡◌, ◌++◌, take, count_by};
ghost use Rattle.lists.specs.Answer.{refused};
ghost use Rattle.replay.specs.Answers.{step_meaning};
ghost use Rattle.locks.specs.Stages.{is_holding};
ghost use Rattle.replay.specs.Replay.{holders_at};
ghost use Rattle.texts.specs.Text.{decimal, space, left_word, spaced, answer_text};
ghost use Rattle.texts.specs.Lines.{step_line, end_line, line_if_granted, party_lines, end_lines, listing, report_line};
ghost use Rattle.texts.specs.Pages.{Puts};

use desk::Desk;
use itoa::Buffer;
use locks::Stage;
use replay::Outcome;

// Kept: each function puts its bytes as far as they fit into lent bytes, as the definition `Puts` says, and answers the place behind them. Display's `write!` has no such promise.

// Puts the bytes into the text from place `at` on, as far as they fit, and answers the place behind them.
fn put_bytes(bytes: &[u8], at: usize, text: &mut [u8]) -> usize
    ensures { Puts at bytes.now text.old text.new result }
{
    let fits = bytes.len().min(text.len().saturating_sub(at));
    if fits == 0 {
        return at;
    }
    text[at..at + fits].copy_from_slice(&bytes[..fits]);
    at + fits
}

// Puts a number in decimal digits.
fn put_number(n: u64, at: usize, text: &mut [u8]) -> usize
    ensures { Puts at (decimal n) text.old text.new result }
{
    let mut digits = Buffer::new();
    put_bytes(digits.format(n).as_bytes(), at, text)
}

// Puts a word, and a number behind it.
fn put_word_number(word: &[u8], n: u64, at: usize, text: &mut [u8]) -> usize
    ensures { Puts at (word.now ++ decimal n) text.old text.new result }
{
    let behind = put_bytes(word, at, text);
    put_number(n, behind, text)
}

// Puts the parties, a space before each.
fn put_parties(parties: &[u8], at: usize, text: &mut [u8]) -> usize
    ensures { Puts at (spaced parties.now) text.old text.new result }
{
    let mut here = at;
    for party in parties {
        here = put_word_number(b" ", u64::from(*party), here, text);
    }
    here
}

// Puts what a leave answered: the word, and the first parties.
fn put_left(parties: &[u8], count: usize, at: usize, text: &mut [u8]) -> usize
    ensures { Puts at (left_word ++ spaced (take count parties.now)) text.old text.new result }
{
    let behind = put_bytes(b"left", at, text);
    put_parties(&parties[..count.min(parties.len())], behind, text)
}

// Puts a step's answer.
fn put_answer(outcome: Outcome, parties: &[u8], at: usize, text: &mut [u8]) -> usize
    ensures { Puts at (answer_text (step_meaning outcome parties.now)) text.old text.new result }
{
    match outcome {
        Outcome::Granted(cover) => put_word_number(b"granted ", cover as u64, at, text),
        Outcome::Waits => put_bytes(b"waits", at, text),
        Outcome::Value(v) => put_word_number(b"value ", v, at, text),
        Outcome::Stored => put_bytes(b"stored", at, text),
        Outcome::Added => put_bytes(b"added", at, text),
        Outcome::Left(count) => put_left(parties, count, at, text),
        Outcome::Refused(k) => put_word_number(b"refused ", u64::from(k), at, text),
    }
}

// Puts a number, and a word behind it.
fn put_number_word(n: u64, word: &[u8], at: usize, text: &mut [u8]) -> usize
    ensures { Puts at (decimal n ++ word.now) text.old text.new result }
{
    let behind = put_number(n, at, text);
    put_bytes(word, behind, text)
}

// Puts a step's line.
pub fn put_line(
    number: usize,
    outcome: Outcome,
    parties: &[u8],
    at: usize,
    text: &mut [u8],
) -> usize
    ensures { Puts at (step_line number (step_meaning outcome parties.now)) text.old text.new result }
{
    let first = put_number_word(number as u64, b" ", at, text);
    let behind = put_answer(outcome, parties, first, text);
    put_bytes(b"\n", behind, text)
}

// The count of holders.
fn holders(desk: Desk) -> usize
    ensures { result ≡ count_by (λ e. is_holding e.stage) desk.entries }
{
    desk.entries
        .iter()
        .filter(|entry| matches!(entry.stage, Stage::Holding(_)))
        .count()
}

// Puts the line `end`: holders, waiters and the sum of the grants.
fn put_end_line(holders: usize, waiting: usize, grants: u64, at: usize, text: &mut [u8]) -> usize
    ensures { Puts at (end_line holders waiting grants) text.old text.new result }
{
    let first = put_word_number(b"end ", holders as u64, at, text);
    let second = put_word_number(b" ", waiting as u64, first, text);
    let third = put_word_number(b" ", grants, second, text);
    put_bytes(b"\n", third, text)
}

// Puts the line of a party with grants; nothing for a party without.
fn put_party_line(party: usize, count: u32, at: usize, text: &mut [u8]) -> usize
    ensures { Puts at (line_if_granted party count) text.old text.new result }
{
    if count == 0 {
        return at;
    }
    let first = put_word_number(b"party ", party as u64, at, text);
    let second = put_word_number(b" ", u64::from(count), first, text);
    put_bytes(b"\n", second, text)
}

// Puts the lines of the parties with grants, lowest party first.
fn put_party_lines(grants: &[u32], at: usize, text: &mut [u8]) -> usize
    ensures { Puts at (party_lines 0 grants.now) text.old text.new result }
{
    let mut here = at;
    for (party, count) in grants.iter().enumerate() {
        here = put_party_line(party, *count, here, text);
    }
    here
}

// Puts the lines after the steps: at most 800 bytes.
pub fn put_end(desk: Desk, at: usize, text: &mut [u8]) -> usize
    ensures { Puts at (end_lines (holders_at desk) desk.waiting desk.grants) text.old text.new result }
{
    let behind = put_end_line(
        holders(desk),
        desk.waiting,
        grants::all_grants(desk.grants),
        at,
        text,
    );
    put_party_lines(&desk.grants, behind, text)
}

// Puts the one line of a refused file or hierarchy.
pub fn put_refused(k: u8, text: &mut [u8]) -> usize
    ensures { Puts 0 (listing (refused k)) text.old text.new result }
{
    let behind = put_word_number(b"refused ", u64::from(k), 0, text);
    put_bytes(b"\n", behind, text)
}

// Puts the one line of the report over a file.
pub fn put_report(all: usize, needless: usize, text: &mut [u8]) -> usize
    ensures { Puts 0 (report_line all needless) text.old text.new result }
{
    let behind = put_number_word(all as u64, b" ", 0, text);
    put_number_word(needless as u64, b"\n", behind, text)
}
