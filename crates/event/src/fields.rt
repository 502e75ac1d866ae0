// Which fields document 01 allows an event.
ghost use Rattle.std.specs.Prelude.{◌≡◌, drop};
ghost use Rattle.little_endian.specs.Number.{bytes_of};
ghost use Rattle.event.specs.Fields.{is_thread_size, is_copy_size, is_bulk_size, all_zero, is_value, is_mode, is_cache, is_pair, allowed};

use crate::{Cache, ElementType, Event, Mode, Operation};

impl Event {
    // A host may build an event by hand: whether its fields are allowed.
    #[tactic(auto, unfolding(crate::specs::Fields::allowed))]
    pub fn allowed(self) -> bool
        ensures { result ≡ allowed self }
    {
        match self {
            Event::Load { size, .. } => is_thread_size(size),
            Event::Store {
                size,
                low,
                high,
                ..
            } => is_thread_size(size) & is_value(size, low, high),
            Event::Copy {
                cp_size,
                mode,
                cache,
                ..
            } => is_copy_size(cp_size) & is_mode(mode, cp_size) & is_cache(cache, cp_size),
            Event::BulkCopy { size, .. } => is_bulk_size(size),
            Event::BulkReduction {
                size,
                operation,
                element,
                ..
            } => is_bulk_size(size) & is_pair(operation, element),
            Event::Commit
            | Event::Wait(_)
            | Event::WaitAll
            | Event::BulkCommit
            | Event::BulkWait(_) => true,
        }
    }
}

fn is_thread_size(size: u32) -> bool
    ensures { result ≡ is_thread_size size }
{
    // Two tests: one of all five is compiled with a jump by the size, which mixed sizes mispredict.
    matches!(size, 1 | 2) | matches!(size, 4 | 8 | 16)
}

fn is_copy_size(size: u32) -> bool
    ensures { result ≡ is_copy_size size }
{
    matches!(size, 4 | 8 | 16)
}

fn is_bulk_size(size: u32) -> bool
    ensures { result ≡ is_bulk_size size }
{
    (size != 0) & (size % 16 == 0)
}

// Whether the value bytes past the first `size` are zero. Where the first half is all value, only the second is looked at.
fn is_value(size: u32, low: u64, high: u64) -> bool
    ensures { result ≡ is_value size low high }
{
    match size.checked_sub(8) {
        Some(rest) => zero_past(high, rest),
        None => zero_past(low, size) & (high == 0),
    }
}

// Whether of a number's eight bytes those past the first `size` are zero.
fn zero_past(number: u64, size: u32) -> bool
    ensures { result ≡ all_zero (drop size (bytes_of 8 number)) }
{
    8 <= size || number >> (8 * size) == 0
}

fn is_mode(mode: Mode, size: u32) -> bool
    ensures { result ≡ is_mode mode size }
{
    match mode {
        Mode::Plain | Mode::SourceIgnored => true,
        Mode::SourceSize(src_size) => src_size <= size,
    }
}

fn is_cache(cache: Cache, size: u32) -> bool
    ensures { result ≡ is_cache cache size }
{
    match cache {
        Cache::Ca => true,
        Cache::Cg => size == 16,
    }
}

fn is_pair(operation: Operation, element: ElementType) -> bool
    ensures { result ≡ is_pair operation element }
{
    match operation {
        Operation::And | Operation::Or | Operation::Xor => element == ElementType::B32,
        Operation::Add | Operation::Min | Operation::Max => element != ElementType::B32,
    }
}
