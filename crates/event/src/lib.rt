// What a trace records: the thread's accesses, the copies and reductions, the commits and waits (document 01).

#![tactic(auto)]

mod copies;
mod fields;
mod meaning;

pub use copies::bytes_read;
pub use meaning::NoMeaning;

// An address counts the bytes of one memory from 0. The two are numbers of different kinds: neither stands for the other.
#[derive(Clone, Copy)]
pub struct GlobalAddress(pub u32);

#[derive(Clone, Copy)]
pub struct SharedAddress(pub u32);

// Where a load reads or a store writes.
#[derive(Clone, Copy)]
pub enum Address {
    Global(GlobalAddress),
    Shared(SharedAddress),
}

// What a copy reads of its source.
#[derive(Clone, Copy, PartialEq, Eq)]
pub enum Mode {
    // cp-size bytes
    Plain,
    // as many bytes as its src-size says
    SourceSize(u32),
    // none
    SourceIgnored,
}

#[derive(Clone, Copy, PartialEq, Eq)]
pub enum Cache {
    Ca,
    Cg,
}

#[derive(Clone, Copy, PartialEq, Eq)]
pub enum Operation {
    And,
    Or,
    Xor,
    Add,
    Min,
    Max,
}

#[derive(Clone, Copy, PartialEq, Eq)]
pub enum ElementType {
    B32,
    U32,
    S32,
}

// One recorded event, with all that its body says. Its cases and fields stand as they are: the theorems on bodies (`DecodesItsBody`,
// `OneBody`) speak of them, and document 01 names two enums for a reduction's operation and type.
#[derive(Clone, Copy)]
pub enum Event {
    Load {
        address: Address,
        size: u32,
    },
    // Of the sixteen value bytes, low holds the first eight and high the others, the lowest first.
    Store {
        address: Address,
        size: u32,
        low: u64,
        high: u64,
    },
    Copy {
        dst: SharedAddress,
        src: GlobalAddress,
        cp_size: u32,
        mode: Mode,
        cache: Cache,
    },
    Commit,
    Wait(u32),
    WaitAll,
    BulkCopy {
        dst: GlobalAddress,
        src: SharedAddress,
        size: u32,
    },
    BulkReduction {
        dst: GlobalAddress,
        src: SharedAddress,
        size: u32,
        operation: Operation,
        element: ElementType,
    },
    BulkCommit,
    BulkWait(u32),
}
