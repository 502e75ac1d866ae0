// A whole file, or as much of it as can matter.
ghost use Rattle.std.specs.Prelude.{◌≡◌, List, ℕ, ◌≤◌, length, take};
ghost use Rattle.answer.specs.Table.{event_limit};
ghost use Rattle.trace.specs.Beginning.{enough};
ghost use Rattle.rules.specs.Answers.{answer_of, lengths_in, answer_of_file};
ghost use Rattle.judge.specs.Beginnings.{answer_of_beginning};

use crate::{PLACE_LENGTH, State};
use answer::Answer;
use trace::File;

// The answer of a file.
pub fn judge(file: &[u8]) -> Answer
    ensures { result ≡ answer_of_file file.now }
{
    judge_beginning(file, file.len())
}

// The answer of a file of `total` bytes, by its first bytes: `trace::ENOUGH` of them are enough.
pub fn judge_beginning(beginning: &[u8], total: usize) -> Answer
    ensures of_a_file { (file : List ℕ) (held : ℕ) → enough event_limit ≤ held → beginning.now ≡ take held file → total ≡ length file → result ≡ answer_of_file file }
    ensures value { result ≡ answer_of_beginning beginning.now total }
{
    match trace::open(beginning, total) {
        Err(refusal) => refusal,
        Ok(file) => judge_file(&file),
    }
}

// The answer of a file of the right shape.
pub fn judge_file(file: &File<'_>) -> Answer
    ensures { result ≡ answer_of (lengths_in file.now.header) file.now.items }
{
    // Two arrays of the stated length: there is no heap.
    let mut ranges = [0u32; PLACE_LENGTH];
    let mut marks = [0u32; PLACE_LENGTH];
    let header = file.header();
    let mut state = State::opening(header.global, header.shared);
    for item in file.items() {
        state = state.step_item(item, &mut ranges, &mut marks);
    }
    state.answer()
}
