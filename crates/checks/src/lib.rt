// The checks of an event by itself (document 01): fields, alignment, range.

#![tactic(auto)]

ghost use Rattle.std.specs.Prelude.{◌≡◌, ◌||◌, ◌+◌, leb};
ghost use Rattle.little_endian.specs.Number.{is_zero};
ghost use Rattle.event.specs.Addresses.{offset_of};
ghost use Rattle.rules.specs.Events.{memory_of};
ghost use Rattle.rules.specs.Faults.{length_of, aligned, in_range};
ghost use Rattle.checks.specs.Faults.{fault_alone};

use answer::Answer;
use event::{Address, Event, bytes_read};
use rules::Lengths;

// The first of 7 to 9 that an event gets as event `number` of a list under these memory lengths, if it gets one.
pub fn fault_alone(event: Event, number: u32, lengths: Lengths) -> Option<Answer>
    ensures { result ≡ fault_alone lengths number event }
{
    // An event may fail several checks, and document 01's order decides which one it answers for.
    if !event.allowed() {
        Some(Answer::FieldNotAllowed { event: number })
    } else if !aligned(event) {
        Some(Answer::Misaligned { event: number })
    } else if !in_range(event, lengths) {
        Some(Answer::OutOfRange { event: number })
    } else {
        None
    }
}

const BULK_ALIGNMENT: u32 = 16;

// A copy's mode does not matter: a source of which no byte is read must be aligned too. Size 0, which an event built by
// hand may have, has 0 for its only multiple.
#[tactic(auto, unfolding(rules::specs::Faults::aligned))]
fn aligned(event: Event) -> bool
    ensures { result ≡ aligned event }
{
    match event {
        Event::Load { address, size } | Event::Store { address, size, .. } => {
            offset_of(address).is_multiple_of(size)
        }
        Event::Copy {
            dst,
            src,
            cp_size,
            ..
        } => dst.0.is_multiple_of(cp_size) & src.0.is_multiple_of(cp_size),
        Event::BulkCopy { dst, src, .. } | Event::BulkReduction { dst, src, .. } => {
            dst.0.is_multiple_of(BULK_ALIGNMENT) & src.0.is_multiple_of(BULK_ALIGNMENT)
        }
        Event::Commit | Event::Wait(_) | Event::WaitAll | Event::BulkCommit | Event::BulkWait(_) =>
            true,
    }
}

// Whether every byte that is read or written lies inside its memory.
#[tactic(auto, unfolding(rules::specs::Faults::in_range))]
fn in_range(event: Event, lengths: Lengths) -> bool
    ensures { result ≡ in_range lengths event }
{
    match event {
        Event::Load { address, size } | Event::Store { address, size, .. } => inside(
            offset_of(address),
            size,
            length_of(address, lengths),
        ),
        Event::Copy {
            dst,
            src,
            cp_size,
            mode,
            ..
        } => inside(dst.0, cp_size, lengths.shared)
            & inside(src.0, bytes_read(mode, cp_size), lengths.global),
        Event::BulkCopy { dst, src, size } | Event::BulkReduction { dst, src, size, .. } => {
            inside(dst.0, size, lengths.global) & inside(src.0, size, lengths.shared)
        }
        Event::Commit | Event::Wait(_) | Event::WaitAll | Event::BulkCommit | Event::BulkWait(_) =>
            true,
    }
}

// Whether `size` bytes from `start` on end by `length`; where there are none, nothing is checked. Addresses never wrap,
// but the machine's `start + size` could: the start is compared with what the size leaves of the length.
fn inside(start: u32, size: u32, length: u32) -> bool
    ensures { result ≡ (is_zero size || leb (start + size) length) }
{
    size == 0 || (size <= length && start <= length - size)
}

// The number of an address of either memory. Crate moves takes a number out of the one kind or the other, to index with it.
fn offset_of(address: Address) -> u32
    ensures { result ≡ offset_of address }
{
    match address {
        Address::Global(at) => at.0,
        Address::Shared(at) => at.0,
    }
}

// The length of the memory that the address counts in.
fn length_of(address: Address, lengths: Lengths) -> u32
    ensures { result ≡ length_of lengths (memory_of address) }
{
    match address {
        Address::Global(_) => lengths.global,
        Address::Shared(_) => lengths.shared,
    }
}
