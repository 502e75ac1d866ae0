// The decoder: from a kind and a body to an event, or to the first check that fails.

#![tactic(auto)]

mod bodies;

ghost use Rattle.std.specs.Prelude.{◌≡◌, ◌≤◌, List, ℕ, Ok};
ghost use Rattle.decoder.specs.declared.Undecoded.TheVariants.{FieldNotAllowed};
ghost use Rattle.decoder.specs.Kinds.{of_length, decode_of, overlong, refusal_of};

use answer::Answer;
use event::{Event, NoMeaning};

// The first check that a body of a kind fails.
#[derive(Clone, Copy)]
pub enum Undecoded {
    UnknownKind,
    WrongBodyLength,
    FieldNotAllowed,
}

impl From<NoMeaning> for Undecoded {
    ghost from_gives = { λ _ reason. reason ≡ FieldNotAllowed };

    fn from(_: NoMeaning) -> Undecoded {
        Self::FieldNotAllowed
    }
}

// What a body of a kind decodes as.
pub type Item = Result<Event, Undecoded>;

// Document 01's answer for an item as event `event` of a list: 5, 6 or 7, and no verdict where it decodes. (No Option: its
// clause promises `refusal_of`, an answer for every item.)
pub fn refusal(item: Item, event: u32) -> Answer
    ensures { result ≡ refusal_of event item }
{
    match item {
        Ok(_) => Answer::NoVerdict,
        Err(Undecoded::UnknownKind) => Answer::UnknownKind { event },
        Err(Undecoded::WrongBodyLength) => Answer::WrongBodyLength { event },
        Err(Undecoded::FieldNotAllowed) => Answer::FieldNotAllowed { event },
    }
}

// A `match` on the byte, in ranges, and no enum of kinds: document 01 names this form.
pub fn decode(kind: u8, body: &[u8]) -> Item
    ensures { result ≡ decode_of kind body.now }
{
    match kind {
        1..=2 => thread(kind, body),
        16..=19 => non_bulk(kind, body),
        32..=35 => bulk(kind, body),
        _ => Err(Undecoded::UnknownKind),
    }
}

#[tactic(auto, unfolding(crate::specs::Kinds::decode_of, crate::specs::Kinds::of_length))]
fn thread(kind: u8, body: &[u8]) -> Item
    requires { (1 ≤ kind) × (kind ≤ 2) }
    ensures { result ≡ decode_of kind body.now }
{
    match kind {
        1 => bodies::load(body),
        _ => bodies::store(body),
    }
}

#[tactic(auto, unfolding(crate::specs::Kinds::decode_of, crate::specs::Kinds::of_length))]
fn non_bulk(kind: u8, body: &[u8]) -> Item
    requires { (16 ≤ kind) × (kind ≤ 19) }
    ensures { result ≡ decode_of kind body.now }
{
    match kind {
        16 => bodies::copy(body),
        17 => without_body(Event::Commit, body),
        18 => Ok(Event::Wait(bodies::newest(body)?)),
        _ => without_body(Event::WaitAll, body),
    }
}

#[tactic(auto, unfolding(crate::specs::Kinds::decode_of, crate::specs::Kinds::of_length))]
fn bulk(kind: u8, body: &[u8]) -> Item
    requires { (32 ≤ kind) × (kind ≤ 35) }
    ensures { result ≡ decode_of kind body.now }
{
    match kind {
        32 => bodies::bulk_copy(body),
        33 => bodies::bulk_reduction(body),
        34 => without_body(Event::BulkCommit, body),
        _ => Ok(Event::BulkWait(bodies::newest(body)?)),
    }
}

#[tactic(auto, unfolding(crate::specs::Kinds::of_length))]
fn without_body(event: Event, body: &[u8]) -> Item
    ensures { result ≡ of_length 0 (λ (_ : List ℕ). Ok event) body.now }
{
    bodies::has_length(body, 0)?;
    Ok(event)
}

// The most bytes that the body of a kind has: those of a store.
pub const LONGEST_BODY: usize = 24;

// What a body that is longer than any kind's decodes as. Its bytes do not matter, so no caller need hold them.
pub fn overlong(kind: u8) -> Item
    ensures { result ≡ overlong kind }
{
    decode(kind, &[0u8; LONGEST_BODY + 1])
}
