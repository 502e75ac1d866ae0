// The table of open operations: one record each, in event order, in the words of two lent places. Its records stand in
// `ranges`, what they write and read, and in `marks`, the rest; each has four words in either place.

#![tactic(auto)]

ghost use Rattle.std.specs.Prelude.{◌≡◌};

mod clash;
mod closing;
mod table;
mod tag;

// The two places stay parameters side by side: in a struct of two `&mut`, `first_clash`, which reads, would ask for places to
// write, and `put` and `close` would have to promise besides that it holds the same two afterwards.
pub use closing::close;
pub use table::{first_clash, put};
pub use tag::{CHAIN_PLACE, OPERATION_PLACE, TYPE_PLACE};

// Bytes of one memory. They may reach past its end, and past the last number of an address.
#[derive(Clone, Copy)]
pub struct Range {
    pub start: u32,
    pub length: u32,
}

impl Range {
    pub fn new(start: u32, length: u32) -> Range
        ensures starts { result.start ≡ start }
        ensures extends { result.length ≡ length }
    {
        Range { start, length }
    }
}

// An open operation, or an event that is compared with it: what it writes and reads, its event, how many groups its chain
// had made when it started, and its tag.
#[derive(Clone, Copy)]
pub struct Record {
    pub writes: Range,
    pub reads: Range,
    pub event: u32,
    pub commits: u32,
    // A number, as it stands in a word of the places: theorem `TagsTellApart` tells tags apart by its digits.
    pub tag: u32,
}

// The memory that a record writes, with its digit of a tag.
#[derive(Clone, Copy)]
pub enum Memory {
    Shared = 0,
    Global = 1,
}

// The chain that closes an operation, that of the non-bulk copies or the bulk one, with its digit of a tag.
#[derive(Clone, Copy)]
pub enum Chain {
    Copies = 0,
    Bulk = 1,
}

// A wait on a chain: how many groups the chain has made, and how many of the newest stay open.
#[derive(Clone, Copy)]
pub struct Wait {
    // A digit as in a tag, and no `Chain`: `close`, which docs/SIGNATURE.md names, takes any, and a narrower type would ask more.
    pub chain: u32,
    pub commits: u32,
    pub newest: u32,
}
