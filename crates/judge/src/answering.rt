// The opening state, and the answer that a state tells.
ghost use Rattle.std.specs.Prelude.{◌≡◌, List, [], ℕ, ◌≤◌, length};
ghost use Rattle.answer.specs.Sheet.{Given};
ghost use Rattle.rules.specs.declared.Lengths.{Lengths};
ghost use Rattle.rules.specs.Faults.{are_memory_lengths};
ghost use Rattle.decoder.specs.Item.{Item};
ghost use Rattle.rules.specs.Answers.{answer_of};
ghost use Rattle.judge.specs.AsLeft.{place_length, AsLeft};
ghost use Rattle.judge.specs.Step.{is_refusal, is_sound, opened, answer_in};

use crate::State;
use answer::{Answer, EVENT_LIMIT};
use parts::GroupsMade;
use rules::Lengths;
use trace::MEMORY_LIMIT;

impl State {
    // The state before the first event of a list under these memory lengths, two numbers as README has them. Places of any
    // contents go with it.
    pub fn opening(global: u32, shared: u32) -> State
        ensures value { result ≡ opened (record { global = global; shared = shared }) }
        ensures as_left { (ranges marks : List ℕ) → place_length ≤ length ranges → place_length ≤ length marks → AsLeft (record { global = global; shared = shared }) [] result ranges marks }
    {
        let lengths = Lengths { global, shared };
        let state = State {
            events: 0,
            peak: 0,
            unclosed: 0,
            made: GroupsMade { copies: 0, bulk: 0 },
            lengths,
            refusal: None,
        };
        if are_memory_lengths(lengths) {
            state
        } else {
            state.ended(0, Answer::WrongMemoryLength)
        }
    }

    // The answer of the list so far, taken as a whole list. A state that no judge leaves is refused as a wrong shape,
    // where that shows.
    pub fn answer(self) -> Answer
        ensures as_judged { (lengths : Lengths) (items : List Item) (ranges marks : List ℕ) → AsLeft lengths items self ranges marks → result ≡ answer_of lengths items }
        ensures value { result ≡ answer_in self }
        ensures given { Given result }
    {
        match self.refusal {
            None if self.is_sound() => Answer::Accepted {
                events: self.events,
                peak: self.peak,
            },
            Some(refusal) if is_refusal(refusal) => refusal,
            _ => Answer::WrongShape,
        }
    }

    // Whether the numbers keep the bounds that they keep where nothing is refused.
    #[tactic(auto, unfolding(crate::specs::Step::is_sound))]
    pub(crate) fn is_sound(self) -> bool
        ensures { result ≡ is_sound self }
    {
        (self.unclosed <= self.peak)
            & (self.peak <= self.events)
            & (self.events <= EVENT_LIMIT)
            & (self.made.copies <= self.events)
            & (self.made.bulk <= self.events)
            & are_memory_lengths(self.lengths)
    }
}

// A state may be put together by a host, so this is asked here too, and not of a header alone.
fn are_memory_lengths(lengths: Lengths) -> bool
    ensures { result ≡ are_memory_lengths lengths }
{
    (lengths.global <= MEMORY_LIMIT) & (lengths.shared <= MEMORY_LIMIT)
}

// Whether it is a refusal that a sheet can hold.
fn is_refusal(answer: Answer) -> bool
    ensures { result ≡ is_refusal answer }
{
    let fits = answer.numbers().fit();
    match answer {
        Answer::Accepted { .. } => false,
        _ => fits,
    }
}
