// Reads a verdict sheet from standard input and writes its code, event, partner and peak to standard output, in one line.
// Whatever is no sheet reads as code 0, no verdict.

#![tactic(auto)]

ghost use Rattle.std.specs.Prelude.{◌≡◌, ◌≤◌, ◌<◌, take, length, IfOk, IfSome, MatchResult};
ghost use Rattle.std.specs.Io.KnownBytes.{Consumes, IsAtEnd};
ghost use Rattle.answer.specs.declared.Answer.TheVariants.{NoVerdict};
ghost use Rattle.answer.specs.Sheet.{read_of};

use answer::{Answer, SHEET_LENGTH};
use std::io;
use std::io::Read;

fn main(rt: HostRuntime) {
    let answer = answer_or_none(read_sheet(rt.stdin()));
    // Nobody is left to tell of a write that fails.
    let _ = line::write_line(&mut io::writer(&rt), &line::answer_numbers(answer));
}

// An input that cannot be read to its end has no sheet.
fn answer_or_none(read: io::Result<Answer>) -> Answer
    ensures { MatchResult read (λ answer. result ≡ answer) (λ _. result ≡ NoVerdict) }
{
    read.unwrap_or(Answer::NoVerdict)
}

// A sheet is the whole input: when it is read, one byte more is asked for, with which it is none.
fn read_sheet<R: Read + Drop>(mut input: R) -> io::Result<Answer>
    ensures { IfOk result (λ answer. IfSome (R.remaining input) (λ bytes. answer ≡ read_of bytes)) }
{
    let mut sheet = [0u8; SHEET_LENGTH];
    let got = read_full(&mut input, &mut sheet)?;
    let mut past = [0u8; 1];
    let more = input.read(&mut past)?;
    Ok(if more == 0 {
        answer::read_sheet(&sheet[..got])
    } else {
        Answer::NoVerdict
    })
}

// Reads until what is lent is full or the input ends, and returns how many bytes were read. Not by `input::read`, which asks for
// bytes past what is lent, and has room for 64 KiB of them on the stack.
fn read_full<R: Read>(input: &mut R, bytes: &mut [u8]) -> io::Result<usize>
    ensures within { IfOk result (λ got. got ≤ length bytes.new) }
    ensures bytes { IfOk result (λ got. Consumes (R.remaining input.old) (R.remaining input.new) (take got bytes.new)) }
    ensures ended { IfOk result (λ got. got < length bytes.new → IsAtEnd (R.remaining input.new)) }
{
    let mut got = 0;
    while got < bytes.len() {
        let count = input.read(&mut bytes[got..])?;
        if count == 0 {
            return Ok(got);
        }
        got += count;
    }
    Ok(got)
}
