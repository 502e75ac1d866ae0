// What the bytes of a body say, kind by kind.
ghost use Rattle.std.specs.Prelude.{◌≡◌, ◌≤◌, ◌≢◌, true, ◌&&◌, ◌||◌, eqb, leb, Ok, Err, MatchResult, cond, length};
ghost use Rattle.little_endian.specs.Number.{is_zero, number_at};
ghost use Rattle.decoder.specs.declared.Undecoded.TheVariants.{WrongBodyLength, FieldNotAllowed};
ghost use Rattle.decoder.specs.Bodies.{byte_at, checked, address_in, thread_meant, load_in, store_in, mode_of, copy_in, bulk_copy_in, bulk_reduction_in};
ghost use Rattle.decoder.specs.Kinds.{of_length};

use crate::{Item, Undecoded};
use event::{Address, Cache, ElementType, Event, GlobalAddress, Mode, Operation, SharedAddress};
use little_endian::number_at;

#[tactic(auto, unfolding(crate::specs::Kinds::of_length, crate::specs::Bodies::checked))]
pub(crate) fn load(body: &[u8]) -> Item
    ensures { result ≡ of_length 8 load_in body.now }
{
    has_length(body, 8)?;
    let (address, size) = address_and_size_in(body)?;
    allowed_event(Event::Load { address, size })
}

#[tactic(auto, unfolding(crate::specs::Kinds::of_length, crate::specs::Bodies::checked))]
pub(crate) fn store(body: &[u8]) -> Item
    ensures { result ≡ of_length 24 store_in body.now }
{
    has_length(body, 24)?;
    let (address, size) = address_and_size_in(body)?;
    allowed_event(Event::Store {
        address,
        size,
        low: number_at(body, 8),
        high: number_at(body, 16),
    })
}

#[tactic(auto, unfolding(crate::specs::Kinds::of_length, crate::specs::Bodies::checked))]
pub(crate) fn copy(body: &[u8]) -> Item
    ensures { result ≡ of_length 16 copy_in body.now }
{
    has_length(body, 16)?;
    allow(body[15] == 0)?;
    allowed_event(Event::Copy {
        dst: SharedAddress(number_at(body, 0)),
        src: GlobalAddress(number_at(body, 4)),
        cp_size: u32::from(body[12]),
        mode: mode_in(body)?,
        cache: Cache::try_from(body[14])?,
    })
}

#[tactic(auto, unfolding(crate::specs::Kinds::of_length, crate::specs::Bodies::checked))]
pub(crate) fn bulk_copy(body: &[u8]) -> Item
    ensures { result ≡ of_length 12 bulk_copy_in body.now }
{
    has_length(body, 12)?;
    allowed_event(Event::BulkCopy {
        dst: GlobalAddress(number_at(body, 0)),
        src: SharedAddress(number_at(body, 4)),
        size: number_at(body, 8),
    })
}

#[tactic(auto, unfolding(crate::specs::Kinds::of_length, crate::specs::Bodies::checked))]
pub(crate) fn bulk_reduction(body: &[u8]) -> Item
    ensures { result ≡ of_length 16 bulk_reduction_in body.now }
{
    has_length(body, 16)?;
    allow((body[14] == 0) & (body[15] == 0))?;
    allowed_event(Event::BulkReduction {
        dst: GlobalAddress(number_at(body, 0)),
        src: SharedAddress(number_at(body, 4)),
        size: number_at(body, 8),
        operation: Operation::try_from(body[12])?,
        element: ElementType::try_from(body[13])?,
    })
}

// The N of a wait or a bulk wait.
pub(crate) fn newest(body: &[u8]) -> Result<u32, Undecoded>
    ensures { MatchResult result (λ newest. (length body.now ≡ 4) × (newest ≡ number_at 4 body.now 0)) (λ reason. (reason ≡ WrongBodyLength) × (length body.now ≢ 4)) }
{
    has_length(body, 4)?;
    Ok(number_at(body, 0))
}

// Whether a body has its kind's length.
pub(crate) fn has_length(body: &[u8], body_length: usize) -> Result<(), Undecoded>
    ensures { MatchResult result (λ _. length body.now ≡ body_length) (λ reason. (reason ≡ WrongBodyLength) × (length body.now ≢ body_length)) }
{
    if body.len() == body_length {
        Ok(())
    } else {
        Err(Undecoded::WrongBodyLength)
    }
}

// The refusal of a body, unless its field is one that document 01 allows.
fn allow(field_allowed: bool) -> Result<(), Undecoded>
    ensures { result ≡ cond field_allowed (Ok tt) (Err FieldNotAllowed) }
{
    if field_allowed {
        Ok(())
    } else {
        Err(Undecoded::FieldNotAllowed)
    }
}

// The event that a body says, or its refusal where document 01 does not allow the event's fields together.
#[tactic(auto, unfolding(crate::specs::Bodies::checked))]
fn allowed_event(event: Event) -> Item
    ensures { result ≡ checked true event }
{
    allow(event.allowed())?;
    Ok(event)
}

// The address and the size of a load or a store. Both begin alike: a space, a size, two zeros, an address.
fn address_and_size_in(body: &[u8]) -> Result<(Address, u32), Undecoded>
    requires { 8 ≤ length body.now }
    ensures { result ≡ cond (thread_meant body.now) (Ok (address_in body.now, byte_at body.now 1)) (Err FieldNotAllowed) }
{
    allow((body[2] == 0) & (body[3] == 0))?;
    Ok((address_in(body)?, u32::from(body[1])))
}

fn address_in(body: &[u8]) -> Result<Address, Undecoded>
    requires { 8 ≤ length body.now }
    ensures { result ≡ cond (leb (byte_at body.now 0) 1) (Ok (address_in body.now)) (Err FieldNotAllowed) }
{
    let at = number_at(body, 4);
    match body[0] {
        0 => Ok(Address::Global(GlobalAddress(at))),
        1 => Ok(Address::Shared(SharedAddress(at))),
        _ => Err(Undecoded::FieldNotAllowed),
    }
}

// In modes 0 and 2 the src-size field is zero.
#[tactic(auto, unfolding(crate::specs::Bodies::mode_of))]
fn mode_in(body: &[u8]) -> Result<Mode, Undecoded>
    requires { 16 ≤ length body.now }
    ensures { result ≡ cond (leb (byte_at body.now 13) 2 && (eqb (byte_at body.now 13) 1 || is_zero (number_at 4 body.now 8))) (Ok (mode_of (byte_at body.now 13) (number_at 4 body.now 8))) (Err FieldNotAllowed) }
{
    let src_size = number_at(body, 8);
    match body[13] {
        0 if src_size == 0 => Ok(Mode::Plain),
        1 => Ok(Mode::SourceSize(src_size)),
        2 if src_size == 0 => Ok(Mode::SourceIgnored),
        _ => Err(Undecoded::FieldNotAllowed),
    }
}
