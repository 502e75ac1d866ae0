// What an event is to the table of open operations.

#![tactic(auto)]

ghost use Rattle.std.specs.Prelude.{◌≡◌, ◌<◌};
ghost use Rattle.parts.specs.Parts.{bytes, blank, load_part, store_part, operation_part, reduction_tag, groups_in, committed, wait_part, part_of};

use event::{Address, ElementType, Event, GlobalAddress, Operation, SharedAddress, bytes_read};
use operations::{CHAIN_PLACE, Chain, Memory, OPERATION_PLACE, Range, Record, TYPE_PLACE, Wait};

// How many groups each chain has made: that of the non-bulk copies, and the bulk one.
#[derive(Clone, Copy)]
pub struct GroupsMade {
    pub copies: u32,
    pub bulk: u32,
}

#[derive(Clone, Copy)]
pub enum Part {
    // A load or a store.
    Access(Record),
    Operation(Record),
    // These two with the groups made after them.
    Commit(GroupsMade),
    Wait(GroupsMade, Wait),
}

impl GroupsMade {
    fn of(self, chain: Chain) -> u32
        ensures { result ≡ groups_in chain self }
    {
        match chain {
            Chain::Copies => self.copies,
            Chain::Bulk => self.bulk,
        }
    }

    // With one group more of the chain.
    fn commit(self, chain: Chain) -> GroupsMade
        requires { groups_in chain self < 4294967295 }
        ensures { result ≡ committed chain self }
    {
        match chain {
            Chain::Copies => GroupsMade {
                copies: self.copies + 1,
                ..self
            },
            Chain::Bulk => GroupsMade {
                bulk: self.bulk + 1,
                ..self
            },
        }
    }

    // A wait on the chain that leaves so many of its newest groups open. It makes none.
    fn wait(self, chain: Chain, newest: u32) -> Part
        ensures { result ≡ wait_part chain self newest }
    {
        let wait = Wait {
            chain: u32::from(chain),
            commits: self.of(chain),
            newest,
        };
        Part::Wait(self, wait)
    }
}

// The parts of a tag, as crate `operations` reads them, are digits of base 16: the memory that is written, the chain that
// closes the operation. A tag is a number: see `Record`. `as`, since a constant's value may not call `u32::from` ..
const COPY_TAG: u32 = Memory::Shared as u32 + CHAIN_PLACE * (Chain::Copies as u32);

const BULK_TAG: u32 = Memory::Global as u32 + CHAIN_PLACE * (Chain::Bulk as u32);

// .. and, of a reduction, its operation, from 1 on, and its type. Not inlined: within the walk over a file the bytes of both
// were taken out of every event, reduction or not.
#[inline(never)]
fn reduction_tag(operation: Operation, element: ElementType) -> u32
    ensures { result ≡ reduction_tag operation element }
{
    BULK_TAG + OPERATION_PLACE * (1 + u32::from(operation)) + TYPE_PLACE * u32::from(element)
}

// What event `number` is, before which the chains have made these groups.
pub fn part_of(number: u32, made: GroupsMade, event: Event) -> Part
    requires { (made.copies < 4294967295) × (made.bulk < 4294967295) }
    ensures { result ≡ part_of number made event }
{
    match event {
        Event::Load { address, size } => load(number, address, size),
        Event::Store { address, size, .. } => store(number, address, size),
        Event::Copy {
            dst,
            src,
            cp_size,
            mode,
            ..
        } => Part::Operation(Record {
            writes: Range::new(dst.0, cp_size),
            reads: Range::new(src.0, bytes_read(mode, cp_size)),
            ..blank(number, made.copies, COPY_TAG)
        }),
        Event::Commit => Part::Commit(made.commit(Chain::Copies)),
        Event::Wait(newest) => made.wait(Chain::Copies, newest),
        Event::WaitAll => made.commit(Chain::Copies).wait(Chain::Copies, 0),
        Event::BulkCopy { dst, src, size } => {
            bulk(blank(number, made.bulk, BULK_TAG), dst, src, size)
        }
        Event::BulkReduction {
            dst,
            src,
            size,
            operation,
            element,
        } => {
            let tag = reduction_tag(operation, element);
            bulk(blank(number, made.bulk, tag), dst, src, size)
        }
        Event::BulkCommit => Part::Commit(made.commit(Chain::Bulk)),
        Event::BulkWait(newest) => made.wait(Chain::Bulk, newest),
    }
}

// The record of an event that touches no byte, before which its chain has made so many groups. What it does touch is put in.
fn blank(event: u32, commits: u32, tag: u32) -> Record
    ensures { result ≡ blank event commits tag }
{
    Record {
        writes: Range::new(0, 0),
        reads: Range::new(0, 0),
        event,
        commits,
        tag,
    }
}

// A load from global memory writes nothing and has the tag of a copy, which reads there too; the others have theirs
// likewise. No wait closes an access of the thread.
fn load(number: u32, address: Address, size: u32) -> Part
    ensures { result ≡ load_part number address size }
{
    let (start, tag) = match address {
        Address::Global(at) => (at.0, COPY_TAG),
        Address::Shared(at) => (at.0, BULK_TAG),
    };
    Part::Access(Record {
        reads: Range::new(start, size),
        ..blank(number, 0, tag)
    })
}

// No twin of a load: it touches on the other side, and its tags go crosswise.
fn store(number: u32, address: Address, size: u32) -> Part
    ensures { result ≡ store_part number address size }
{
    let (start, tag) = match address {
        Address::Global(at) => (at.0, BULK_TAG),
        Address::Shared(at) => (at.0, COPY_TAG),
    };
    Part::Access(Record {
        writes: Range::new(start, size),
        ..blank(number, 0, tag)
    })
}

// A bulk operation, from a record that touches no byte yet.
fn bulk(operation: Record, dst: GlobalAddress, src: SharedAddress, size: u32) -> Part
    ensures { result ≡ operation_part operation.event operation.commits (bytes dst.0 size) (bytes src.0 size) operation.tag }
{
    Part::Operation(Record {
        writes: Range::new(dst.0, size),
        reads: Range::new(src.0, size),
        ..operation
    })
}
