// The program of the report: one file on standard input, one line on standard output with two numbers, all waits and needless ones.
#![tactic(auto)]

ghost use Rattle.std.specs.Prelude.{◌≡◌};
ghost use Rattle.texts.specs.Lines.{report_line};
ghost use Rattle.texts.specs.Pages.{Puts};
ghost use Rattle.needless.specs.Waits.{waits_of};

// The bytes of a file at most, and one more, which tells that the input is too long.
const FILE: usize = opening::FILE_BYTES + 1;

// What is told on standard error where the line was not written; the exit status stays 0.
const NOT_WRITTEN: &[u8] = b"waits: standard output did not take the line\n";

// Puts the line of the report over a file into the text from its first byte on.
fn put_line(file: &[u8], text: &mut [u8]) -> usize
    ensures { Puts 0 (report_line (waits_of file.now).all (waits_of file.now).needless) text.old text.new result }
{
    let report = needless::report(file);
    texts::put_report(report.all, report.needless, text)
}

// Reads the file, and writes the line of its report.
fn main(rt: HostRuntime) {
    let mut file = [0u8; FILE];
    let got = streams::read_full(&mut rt.stdin(), &mut file);
    let mut text = [0u8; 64];
    let at = put_line(&file[..got], &mut text);
    let written = streams::write_all(&mut rt.stdout(), &text[..at]);
    let _ = streams::tell(&mut rt.stderr(), written, NOT_WRITTEN);
}
