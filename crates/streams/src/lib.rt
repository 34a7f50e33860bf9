// Whole buffers read and written over std's readers and writers, numbers written as text, and an argument's bytes: all in the room that the caller lends.
#![tactic(auto)]

ghost use Rattle.std.specs.Prelude.{◌≡◌, ◌≢◌, ◌<◌, ◌≤◌, ℕ, length, min, take, decimal, slice_index, IfSome, IfOk, IfErr, OnOk};
ghost use Rattle.std.specs.Io.KnownBytes.{Appends, Consumes, Keeps};
ghost use Rattle.streams.specs.Fronts.{AppendsFront, eight_digits};

use itoa::Buffer;
use memchr::memchr;
use std::io;
use std::io::{ErrorKind, Read, Write};
use std::rt::Env;

// Writes all of the bytes, or stops at the first write that takes nothing or fails, when a part of them may have been written.
// Kept: std's `write_all` does not say that what an error leaves written is a front of the bytes, as clause `front` does.
pub fn write_all<W: Write>(out: &mut W, bytes: &[u8]) -> io::Result<()>
    ensures front { AppendsFront (W.contents out.old) (W.contents out.new) bytes.now }
    ensures whole { OnOk result (Appends (W.contents out.old) (W.contents out.new) bytes.now) }
{
    let mut done = 0;
    while done < bytes.len() {
        match out.write(&bytes[done..])? {
            0 => return Err(ErrorKind::WriteZero.into()),
            n => done += n,
        }
    }
    Ok(())
}

// How many bytes one read puts at the start of the room: none where it fails.
fn read_some<R: Read>(input: &mut R, room: &mut [u8]) -> usize
    ensures bound { result ≤ length room.new }
    ensures front { Consumes (R.remaining input.old) (R.remaining input.new) (take result room.new) }
{
    input.read(room).unwrap_or(0)
}

// Reads until the room is full, the input ends or a read fails, and answers how many bytes it put at the start of the room.
pub fn read_full<R: Read>(input: &mut R, room: &mut [u8]) -> usize
    ensures bound { result ≤ length room.new }
    ensures front { Consumes (R.remaining input.old) (R.remaining input.new) (take result room.new) }
{
    let mut done = 0;
    while done < room.len() {
        let n = read_some(input, &mut room[done..]);
        if n == 0 {
            break;
        }
        done += n;
    }
    done
}

// Writes a number in decimal digits, as `write_all` writes.
pub fn print_decimal<W: Write>(out: &mut W, n: u64) -> io::Result<()>
    ensures front { AppendsFront (W.contents out.old) (W.contents out.new) (decimal n) }
    ensures whole { OnOk result (Appends (W.contents out.old) (W.contents out.new) (decimal n)) }
{
    let mut digits = Buffer::new();
    write_all(out, digits.format(n).as_bytes())
}

// Writes a number in hexadecimal digits, in lower case, with zeros before it up to eight.
pub fn print_hex<W: Write>(out: &mut W, n: u32) -> io::Result<()>
    ensures { OnOk result (Appends (W.contents out.old) (W.contents out.new) (eight_digits n)) }
{
    write!(out, "{n:08x}")
}

// Tells what was not written, where writing it failed.
pub fn tell<W: Write>(errors: &mut W, written: io::Result<()>, words: &[u8]) -> io::Result<()>
    ensures front { AppendsFront (W.contents errors.old) (W.contents errors.new) words.now }
    ensures told { IfErr written (λ _. OnOk result (Appends (W.contents errors.old) (W.contents errors.new) words.now)) }
    ensures silent { IfOk written (λ _. Keeps (W.contents errors.old) (W.contents errors.new)) }
{
    if written.is_err() {
        return write_all(errors, words);
    }
    Ok(())
}

// Where the line that begins at a place ends: at its newline, or at the end of the text, also for a place past that end.
pub fn line_end(text: &[u8], from: usize) -> usize
    ensures low { min from (length text.now) ≤ result }
    ensures high { result ≤ length text.now }
    ensures within { (k : ℕ) → from ≤ k → k < result → slice_index text.now k ≢ 10 }
    ensures newline { result < length text.now → slice_index text.now result ≡ 10 }
{
    if text.len() < from {
        return text.len();
    }
    match memchr(b'\n', &text[from..]) {
        Some(i) => from + i,
        None => text.len(),
    }
}

// Puts argument k at the start of the room and answers its length; none where it is missing, or longer than the room.
pub fn argument<E: Env>(env: &E, k: usize, room: &mut [u8]) -> Option<usize>
    ensures { IfSome result (λ n. n ≤ length room.new) }
{
    env.arg(k, room).ok()
}
