// One event more.
ghost use Rattle.std.specs.Prelude.{◌≡◌, true, ◌<◌, max, length, Ok};
ghost use Rattle.answer.specs.declared.Answer.TheVariants.{Clash};
ghost use Rattle.answer.specs.Table.{event_limit};
ghost use Rattle.decoder.specs.Kinds.{decode_of};
ghost use Rattle.operations.specs.Table.{records};
ghost use Rattle.judge.specs.AsLeft.{ended};
ghost use Rattle.judge.specs.Step.{goes_on, counted, refused_by, passed_to, clash_in, leaving, left_by, Stepped};

use crate::{PLACE_LENGTH, State};
use answer::{Answer, EVENT_LIMIT};
use checks::fault_alone;
use decoder::Item;
use event::Event;
use parts::{GroupsMade, Part};

// Two slices and no struct of both: README has them so, and theorem `WordsPastStay` speaks of the words of each.
impl State {
    // The next state, after an event.
    pub fn step(self, event: Event, ranges: &mut [u32], marks: &mut [u32]) -> State
        ensures { Stepped self (Ok event) ranges.old marks.old result ranges.new marks.new }
    {
        self.step_item(Ok(event), ranges, marks)
    }

    // The next state, after a raw kind and body, as they stand in a file.
    pub fn step_body(self, kind: u8, body: &[u8], ranges: &mut [u32], marks: &mut [u32]) -> State
        ensures { Stepped self (decode_of kind body.now) ranges.old marks.old result ranges.new marks.new }
    {
        self.step_item(decoder::decode(kind, body), ranges, marks)
    }

    // The next state, after what the decoder answered.
    pub fn step_item(self, item: Item, ranges: &mut [u32], marks: &mut [u32]) -> State
        ensures { Stepped self item ranges.old marks.old result ranges.new marks.new }
    {
        if !self.goes_on(ranges.len(), marks.len()) {
            return self.counted();
        }
        let Ok(event) = item else {
            return self.refused(decoder::refusal(item, self.events));
        };
        if let Some(fault) = fault_alone(event, self.events, self.lengths) {
            return self.refused(fault);
        }
        let part = parts::part_of(self.events, self.made, event);
        self.after(part, ranges, marks)
    }

    // Whether the next event is judged: nothing is refused, the limit is not reached, and nothing shows that the state
    // or the places, of so many words, are not a judge's.
    #[tactic(auto, unfolding(crate::specs::Step::goes_on))]
    fn goes_on(self, ranges: usize, marks: usize) -> bool
        ensures { result ≡ goes_on self ranges marks }
    {
        self.refusal.is_none()
            & self.is_sound()
            & (self.events < EVENT_LIMIT)
            & (PLACE_LENGTH <= ranges)
            & (PLACE_LENGTH <= marks)
    }

    // The state after an event that is not judged. A list past the limit is refused as such, whatever stood before.
    #[tactic(auto, unfolding(crate::specs::Step::counted))]
    fn counted(self) -> State
        ensures { result ≡ counted self }
    {
        if self.events < EVENT_LIMIT {
            self.ended(self.events + 1, self.refusal.unwrap_or(Answer::WrongShape))
        } else {
            self.ended(EVENT_LIMIT + 1, Answer::TooManyEvents)
        }
    }

    // The state after a refusal: nothing is kept of the events but their number. More is open than peak, so that a state
    // whose refusal got lost shows (`LostRefusalsShow`).
    pub(crate) fn ended(self, events: u32, refusal: Answer) -> State
        ensures { result ≡ ended self.lengths events refusal }
    {
        State {
            events,
            peak: 0,
            unclosed: 1,
            made: GroupsMade { copies: 0, bulk: 0 },
            refusal: Some(refusal),
            ..self
        }
    }

    // The state after an event that is refused.
    fn refused(self, refusal: Answer) -> State
        requires { self.events < event_limit }
        ensures { result ≡ refused_by self refusal }
    {
        self.ended(self.events + 1, refusal)
    }

    // The state after an event that passes, with so many operations open and these groups made.
    fn passed(self, unclosed: u32, made: GroupsMade) -> State
        requires { self.events < event_limit }
        ensures { result ≡ passed_to self unclosed made }
    {
        State {
            events: self.events + 1,
            peak: self.peak.max(unclosed),
            unclosed,
            made,
            ..self
        }
    }

    // The state after an event without fault. A wait compacts the table in place. The part is told apart before the
    // search and not after it: it would have to be kept over the search, which costs every access.
    fn after(self, part: Part, ranges: &mut [u32], marks: &mut [u32]) -> State
        requires { goes_on self (length ranges.old) (length marks.old) ≡ true }
        ensures { leaving result ranges.new marks.new ≡ left_by part self ranges.old marks.old }
    {
        match part {
            Part::Access(_) => match self.clash(part, ranges, marks) {
                Some(partner) => self.clashed(partner),
                None => self.passed(self.unclosed, self.made),
            },
            Part::Operation(operation) => match self.clash(part, ranges, marks) {
                Some(partner) => self.clashed(partner),
                None => {
                    operations::put(ranges, marks, self.unclosed, operation);
                    self.passed(self.unclosed + 1, self.made)
                }
            },
            Part::Commit(made) => self.passed(self.unclosed, made),
            Part::Wait(made, wait) => {
                let unclosed = operations::close(ranges, marks, self.unclosed, wait);
                self.passed(unclosed, made)
            }
        }
    }

    // The state after an event that clashes with this earlier one.
    fn clashed(self, partner: u32) -> State
        requires { self.events < event_limit }
        ensures { result ≡ refused_by self (Clash self.events partner) }
    {
        self.refused(Answer::Clash {
            event: self.events,
            partner,
        })
    }

    // The earlier event that an event without fault clashes with. Accesses and operations are compared with the open
    // operations alone. Not inlined: within the walk over a file the search, which is most of the work where much is open, was
    // compiled with its jumps so placed that it took half as long again.
    #[inline(never)]
    fn clash(self, part: Part, ranges: &[u32], marks: &[u32]) -> Option<u32>
        requires { goes_on self (length ranges.now) (length marks.now) ≡ true }
        ensures { result ≡ clash_in part (records self.unclosed ranges.now marks.now) }
    {
        match part {
            Part::Access(record) | Part::Operation(record) => {
                operations::first_clash(ranges, marks, self.unclosed, record)
            }
            Part::Commit(_) | Part::Wait(..) => None,
        }
    }
}
