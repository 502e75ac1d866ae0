// The judge: one event at a time, or a whole file. What it keeps of open operations stands in two places that a host lends
// to each step, `ranges` and `marks`, each of PLACE_LENGTH words or more.

#![tactic(auto)]

mod answering;
mod file;
mod stepping;

use answer::{Answer, EVENT_LIMIT};
pub use file::{judge, judge_beginning, judge_file};
use parts::GroupsMade;
use rules::Lengths;

// The words of each lent place: four for each operation that can be open.
pub const PLACE_LENGTH: usize = 4 * (EVENT_LIMIT as usize);

// The judge between two events. Once something is refused, it only counts the events that follow.
#[derive(Clone, Copy)]
pub struct State {
    pub events: u32,
    // The largest number of operations open after any event, and how many are open now.
    pub peak: u32,
    pub unclosed: u32,
    pub made: GroupsMade,
    pub lengths: Lengths,
    // Any answer, and no narrower type: a host may put a state together, and `AnyStateAnswers` and `FaultsShow` speak of it.
    pub refusal: Option<Answer>,
}
