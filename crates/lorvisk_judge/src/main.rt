// Judges trace files of any length. With no argument: a trace file on standard input, its verdict sheet on standard output.
// With arguments: each is a file's name, and for each one line, `NAME code event partner peak`. What cannot be read to its
// end has no verdict: twelve zero bytes, or `NAME 0 0 0 0`, and a line on standard error. Nor has a name that goes on after a
// newline, where it could write another file's line: its own has what stands before that. The library opens no file whose name
// is not UTF-8, so that such a file is judged on standard input alone. Memory is fixed: arrays of the longest length that matters.

#![tactic(auto)]

ghost use Rattle.std.specs.Prelude.{◌≡◌, ◌≢◌, ◌<◌, ℕ, length, slice_index};
ghost use Rattle.line.specs.Text.{IsPrefixLen};

use answer::{Answer, SHEET_LENGTH};
use input::{PATH_MAX, Whole};
use line::LINE_LENGTH;
use std::env::{Env, FillError};
use std::io;
use std::io::Read;
use trace::ENOUGH;

fn main(rt: HostRuntime) {
    if !judge_argument(&rt, 1) {
        judge_input(&rt);
        return;
    }
    // `env::args` copies the arguments to a heap, and knows none that is not UTF-8.
    for argument in 2..usize::MAX {
        if !judge_argument(&rt, argument) {
            return;
        }
    }
}

fn judge_input(rt: &HostRuntime) {
    let answer = answer_or_none(rt, b"standard input", judge_file(&mut rt.stdin()));
    let mut sheet = [0u8; SHEET_LENGTH];
    answer::write_sheet(answer, &mut sheet);
    let _ = rt.write_all(&sheet);
}

// Says whether there is such an argument. No path is longer than the buffer, so of a longer name the line has the first bytes.
fn judge_argument(rt: &HostRuntime, argument: usize) -> bool {
    let mut name = [0u8; PATH_MAX];
    match rt.arg(argument, &mut name) {
        Ok(length) => {
            let name = &name[..length];
            print(rt, name, judge_named(rt, name));
        }
        Err(FillError::TooLong) => print(rt, &name, Err(input::name_too_long())),
        Err(FillError::NotPresent) => return false,
    }
    true
}

fn judge_named(rt: &HostRuntime, name: &[u8]) -> io::Result<Answer> {
    if name.contains(&b'\n') {
        return Err(io::Error::other(
            "the name goes on after a newline: judge the file on standard input",
        ));
    }
    judge_file(&mut input::open(rt, name)?)
}

fn judge_file<R: Read>(file: &mut R) -> io::Result<Answer> {
    let mut beginning = [0u8; ENOUGH];
    let Whole { held, total } = input::read(file, &mut beginning)?;
    Ok(judge::judge_beginning(&beginning[..held], total))
}

// A file that has no answer has no verdict, and a line on standard error.
fn answer_or_none(rt: &HostRuntime, name: &[u8], answer: io::Result<Answer>) -> Answer {
    input::ok_or_report(rt, name, answer).unwrap_or(Answer::NoVerdict)
}

// The line of a file, with as much of its name as stands before a newline.
fn print(rt: &HostRuntime, name: &[u8], answer: io::Result<Answer>) {
    let name = &name[..first_line(name)];
    let answer = answer_or_none(rt, name, answer);
    print_answer(rt, name, answer);
}

// One write, so that a pipe has the line whole or not at all. Nobody is left to tell of one that fails. Not inlined, so that the
// room for the line is not taken while an error is told.
#[inline(never)]
fn print_answer(rt: &impl Print, name: &[u8], answer: Answer) {
    let mut line = [0u8; PATH_MAX + 1 + LINE_LENGTH];
    let length = line::lay_out_named(name, &line::answer_numbers(answer), &mut line);
    let _ = rt.write_all(&line[..length]);
}

// How many bytes of a name stand before its first newline.
fn first_line(name: &[u8]) -> usize
    ensures prefix_len { IsPrefixLen result name.now }
    ensures before { (k : ℕ) → k < result → slice_index name.now k ≢ 10 }
    ensures newline { result < length name.now → slice_index name.now result ≡ 10 }
{
    name.iter()
        .position(|byte| *byte == b'\n')
        .unwrap_or(name.len())
}
