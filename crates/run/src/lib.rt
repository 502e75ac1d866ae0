// A trace file, run over two lent memories and a load record (document 01).

#![tactic(auto)]

mod events;

ghost use Rattle.std.specs.Prelude.{◌≡◌, List, ℕ, ◌≤◌, length, take};
ghost use Rattle.answer.specs.Table.{event_limit};
ghost use Rattle.trace.specs.File.{recorded, file_of};
ghost use Rattle.trace.specs.Beginning.{enough, held_of};
ghost use Rattle.rules.specs.Answers.{lengths_in};
ghost use Rattle.run.specs.Running.{lent, Ran};

use answer::Answer;
use trace::File;

// Runs a file. The answer is its own, with 4 also where a length is not the lent memory's, and 11 where the loads do not
// fit the record. A refusal changes nothing that is lent.
pub fn run(file: &[u8], global: &mut [u8], shared: &mut [u8], loads: &mut [u8]) -> Answer
    ensures { Ran (file_of event_limit file.now) (lent global.old shared.old loads.old) result (lent global.new shared.new loads.new) }
{
    run_beginning(file, file.len(), global, shared, loads)
}

// The same of a file of `total` bytes, by its first bytes: `trace::ENOUGH` of them are enough.
pub fn run_beginning(
    beginning: &[u8],
    total: usize,
    global: &mut [u8],
    shared: &mut [u8],
    loads: &mut [u8],
) -> Answer
    ensures of_a_file { (file : List ℕ) (held : ℕ) → enough event_limit ≤ held → beginning.now ≡ take held file → total ≡ length file → Ran (file_of event_limit file) (lent global.old shared.old loads.old) result (lent global.new shared.new loads.new) }
    ensures ran { Ran (held_of event_limit beginning.now total) (lent global.old shared.old loads.old) result (lent global.new shared.new loads.new) }
{
    match trace::open(beginning, total) {
        Err(refusal) => refusal,
        Ok(file) => {
            let header = file.header();
            if (header.global as usize == global.len()) & (header.shared as usize == shared.len()) {
                run_lent(&file, global, shared, loads)
            } else {
                Answer::WrongMemoryLength
            }
        }
    }
}

// The same of a file of the right shape, over memories of the lengths that its header says. All is judged, and the room is
// checked, before any event acts. Each operation acts as soon as it is started: an accepted list leaves the same in every
// permitted order. The three slices are `run`'s own, whose promise names each; `act_all` puts them into one struct.
fn run_lent(file: &File<'_>, global: &mut [u8], shared: &mut [u8], loads: &mut [u8]) -> Answer
    requires { lengths_in file.now.header ≡ record { global = length global.old; shared = length shared.old } }
    ensures { Ran (recorded file.now.header file.now.items) (lent global.old shared.old loads.old) result (lent global.new shared.new loads.new) }
{
    let answer = judge::judge_file(file);
    let Answer::Accepted { .. } = answer else {
        return answer;
    };
    if loads.len() < events::load_bytes(file) {
        return Answer::NoRoom {
            event: file.header().events,
        };
    }
    events::act_all(file, global, shared, loads);
    answer
}
