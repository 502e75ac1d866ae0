// Reads a trace file from standard input and writes one line to standard output: the header (events, global length, shared
// length) where every event decodes, else the code, event, partner and peak of the first of 2 to 7 that the file gets. An
// input that cannot be read to its end gets the four numbers of no verdict. Memory is fixed: an array of the longest length that
// matters.

#![tactic(auto)]

ghost use Rattle.std.specs.Prelude.{◌≤◌, length};

use answer::Answer;
use input::Whole;
use std::io;
use trace::{ENOUGH, Header};

fn main(rt: HostRuntime) {
    let mut beginning = [0u8; ENOUGH];
    match input::read(&mut rt.stdin(), &mut beginning) {
        Ok(Whole { held, total }) => print_shape(&rt, trace::check(&beginning[..held], total)),
        Err(_) => print_answer(&rt, Answer::NoVerdict),
    }
}

fn print_shape(rt: &impl Print, shape: Result<Header, Answer>) {
    match shape {
        Ok(header) => print(rt, &[header.events, header.global, header.shared]),
        Err(answer) => print_answer(rt, answer),
    }
}

fn print_answer(rt: &impl Print, answer: Answer) {
    print(rt, &line::answer_numbers(answer));
}

// Nobody is left to tell of a write that fails.
fn print(rt: &impl Print, numbers: &[u32])
    requires { length numbers.now ≤ 4 }
{
    let _ = line::write_line(&mut io::writer(rt), numbers);
}
