// The program that cuts a file: k is its argument, the file is on standard input, and the shorter file goes to standard output.
#![tactic(auto)]

use std::io::Write;

// The bytes of a file at most, and one more, which tells that the input is too long.
const FILE: usize = opening::FILE_BYTES + 1;

// The bytes of an argument at most: Linux passes none that is longer.
const ARGUMENT: usize = 131072;

// Bytes of a block.
const BLOCK: usize = 512;

// What is told on standard error where the shorter file was not written; the exit status stays 0.
const NOT_WRITTEN: &[u8] = b"cut: standard output did not take the whole file\n";

// Writes the line of a refusal to standard error, and nothing to standard output.
fn write_refused<W: Write>(errors: &mut W, k: u8) {
    let mut text = [0u8; 64];
    let at = texts::put_refused(k, &mut text);
    let _ = streams::write_all(errors, &text[..at]);
}

// Cuts the file on standard input after its first k steps.
fn cut_input(rt: &HostRuntime, k: usize) {
    let mut file = [0u8; FILE];
    let got = streams::read_full(&mut rt.stdin(), &mut file);
    let mut room = [0u8; FILE];
    match shorter::cut(&file[..got], k, &mut room) {
        Err(j) => write_refused(&mut rt.stderr(), j.number()),
        Ok(m) => {
            let written = streams::write_all(&mut rt.stdout(), &room[..BLOCK * m]);
            let _ = streams::tell(&mut rt.stderr(), written, NOT_WRITTEN);
        }
    }
}

// Takes k from the argument, a decimal number of any size; one that is missing or anything else gets a line of usage.
fn main(rt: HostRuntime) {
    let mut text = [0u8; ARGUMENT];
    let n = streams::argument(&rt, 1, &mut text).unwrap_or(0);
    let digits = &text[..n];
    if numerals::is_decimal(digits) {
        cut_input(&rt, numerals::number_in(digits));
    } else {
        let _ = streams::write_all(&mut rt.stderr(), b"usage: cut K <FILE >SHORTER-FILE\n");
    }
}
