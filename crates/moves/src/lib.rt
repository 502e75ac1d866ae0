// What an event does (document 01): a load appends to the load record, and a store, a copy, a bulk copy and a reduction
// write one part of one memory, which is all that they are lent of it.

#![tactic(auto)]

mod memory;
mod thread;

ghost use Rattle.std.specs.Prelude.{◌≡◌, true, ◌+◌, ◌≤◌, [], ◌∷◌, length};
ghost use Rattle.rules.specs.Faults.{faultless};
ghost use Rattle.rules.specs.Outcomes.{load_size};
ghost use Rattle.moves.specs.Acting.{moved, memories, acted, held, lengths, IsSame, IsSameLoan};

use event::{Event, bytes_read};
use memory::{Global, Memory, Shared};

// What is lent: the two memories, and the load record with the bytes before index `filled` in use. Three lifetimes and plain
// slices: with one lifetime, or a `Memory` in here, nothing was known of what a caller's memories end as, and its proof did
// not close. `filled` stays a number: `acted` appends at any index, and names the whole record, which a shrunk slice cannot.
#[derive(Drop)]
pub struct Lent<'g, 's, 'l> {
    pub global: &'g mut [u8],
    pub shared: &'s mut [u8],
    pub loads: &'l mut [u8],
    pub filled: usize,
}

impl<'g, 's, 'l> Lent<'g, 's, 'l> {
    // No byte of the record is in use yet.
    pub fn new(global: &'g mut [u8], shared: &'s mut [u8], loads: &'l mut [u8]) -> Lent<'g, 's, 'l>
        ensures same_global { IsSame global.entry result.global }
        ensures same_shared { IsSame shared.entry result.shared }
        ensures same_loads { IsSame loads.entry result.loads }
        ensures held { held result ≡ memories global.old shared.old loads.old 0 }
    {
        Lent {
            global,
            shared,
            loads,
            filled: 0,
        }
    }

    // An event without fault acts, on memories of the lengths that it was judged by.
    pub fn act(&mut self, event: Event)
        requires faultless { faultless (lengths self.old) event ≡ true }
        requires load_fits { self.old.filled + load_size event ≤ length self.old.loads.now }
        ensures same_loan { IsSameLoan self.old self.new }
        ensures acted { held self.new ≡ acted event (held self.old) }
    {
        let mut global = Memory::new(self.global);
        let mut shared = Memory::new(self.shared);
        let end = self.filled + (load_size(event) as usize);
        let read = &mut self.loads[self.filled..end];
        move_bytes(event, &mut global, &mut shared, read);
        self.filled = end;
    }
}

// Moves the bytes of an event. What is lent of the record to read into is as long as what a load reads, and else empty. The
// memories are two parameters: a struct of both would promise `IsSame` of each and be taken apart in every arm.
fn move_bytes(event: Event, global: &mut Global<'_>, shared: &mut Shared<'_>, read: &mut [u8])
    requires faultless { faultless (record { global = length global.old.bytes.now; shared = length shared.old.bytes.now }) event ≡ true }
    requires read_fits { length read.old ≡ load_size event }
    ensures same_global { IsSame global.old.bytes global.new.bytes }
    ensures same_shared { IsSame shared.old.bytes shared.new.bytes }
    ensures global_after { global.new.bytes.now ≡ (moved event global.old.bytes.now shared.old.bytes.now).global }
    ensures shared_after { shared.new.bytes.now ≡ (moved event global.old.bytes.now shared.old.bytes.now).shared }
    ensures read_after { read.new ∷ [] ≡ (moved event global.old.bytes.now shared.old.bytes.now).loaded }
{
    match event {
        Event::Load { address, size } => thread::load(address, size, global, shared, read),
        Event::Store {
            address,
            size,
            low,
            high,
        } => thread::store(address, size, low, high, global, shared),
        Event::Copy {
            dst,
            src,
            cp_size,
            mode,
            ..
        } => shared.write_padded(dst, cp_size, global.part(src, bytes_read(mode, cp_size))),
        Event::BulkCopy { dst, src, size } => global.write(dst, shared.part(src, size)),
        Event::BulkReduction {
            dst,
            src,
            size,
            operation,
            element,
        } => global.reduce(dst, shared.part(src, size), operation, element),
        Event::Commit | Event::Wait(_) | Event::WaitAll | Event::BulkCommit | Event::BulkWait(_) =>
            {}
    }
}

// The bytes that an event loads: the room that it takes in the record.
pub fn load_size(event: Event) -> u32
    ensures { result ≡ load_size event }
{
    if let Event::Load { size, .. } = event {
        size
    } else {
        0
    }
}
