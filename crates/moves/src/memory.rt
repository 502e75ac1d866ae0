// A memory, and the addresses that count in it. An address's number is taken out of it only to index its memory.
ghost use Rattle.std.specs.Prelude.{◌≡◌, ◌+◌, ◌%◌, ◌≤◌, ◌<◌, ℕ, length};
ghost use Rattle.effect.specs.Memory.{read, write};
ghost use Rattle.effect.specs.Element.{reduce};
ghost use Rattle.effect.specs.Effect.{padded};
ghost use Rattle.moves.specs.Acting.{IsSame};

use event::{ElementType, GlobalAddress, Operation, SharedAddress};
use std::marker::PhantomData;

// An address of one memory. A trait, since document 01 has two types of address; crate checks takes the number of either.
pub(crate) trait MemoryAddress: Copy {
    ghost offset: { Self → ℕ };

    // Its number.
    fn offset(self) -> usize
        ensures { result ≡ offset self };
}

impl MemoryAddress for GlobalAddress {
    ghost offset = { λ at. at.0 };

    fn offset(self) -> usize {
        self.0 as usize
    }
}

impl MemoryAddress for SharedAddress {
    ghost offset = { λ at. at.0 };

    fn offset(self) -> usize {
        self.0 as usize
    }
}

// The bytes of the memory that addresses of type `A` count in: no others index them, as they would a plain slice. Each
// function that is lent one promises that the reference in it stays (`IsSame`): else nothing is known of what was lent.
#[derive(Drop)]
pub(crate) struct Memory<'a, A> {
    bytes: &'a mut [u8],
    indexed_by: PhantomData<A>,
}

// The two memories of a run.
pub(crate) type Global<'a> = Memory<'a, GlobalAddress>;

pub(crate) type Shared<'a> = Memory<'a, SharedAddress>;

impl<'a, A: MemoryAddress> Memory<'a, A> {
    pub(crate) fn new(bytes: &'a mut [u8]) -> Memory<'a, A>
        ensures same_reference { IsSame bytes.entry result.bytes }
        ensures same_bytes { result.bytes.now ≡ bytes.old }
    {
        Memory {
            bytes,
            indexed_by: PhantomData,
        }
    }

    // `size` bytes. Where there are none, the address may lie outside.
    pub(crate) fn part(&self, at: A, size: u32) -> &[u8]
        requires { 0 < size → A.offset at + size ≤ length self.now.bytes.now }
        ensures { result.now ≡ read self.now.bytes.now (A.offset at) size }
    {
        if size == 0 {
            return &self.bytes[..0];
        }
        let start = at.offset();
        let end = start + (size as usize);
        &self.bytes[start..end]
    }

    // Writes these bytes. Here and below only the part that is written is lent on.
    pub(crate) fn write(&mut self, at: A, source: &[u8])
        requires { A.offset at + length source.now ≤ length self.old.bytes.now }
        ensures same_reference { IsSame self.old.bytes self.new.bytes }
        ensures written { self.new.bytes.now ≡ write self.old.bytes.now (A.offset at) source.now }
    {
        let start = at.offset();
        let end = start + source.len();
        copy_all(source, &mut self.bytes[start..end]);
    }

    // Writes these bytes, and zeros after them, `size` bytes in all.
    pub(crate) fn write_padded(&mut self, at: A, size: u32, source: &[u8])
        requires { (A.offset at + size ≤ length self.old.bytes.now) × (length source.now ≤ size) }
        ensures same_reference { IsSame self.old.bytes self.new.bytes }
        ensures written { self.new.bytes.now ≡ write self.old.bytes.now (A.offset at) (padded size source.now) }
    {
        let start = at.offset();
        let end = start + (size as usize);
        copy_padded(source, &mut self.bytes[start..end]);
    }

    // Combines each element of the source with the one here.
    pub(crate) fn reduce(
        &mut self,
        at: A,
        source: &[u8],
        operation: Operation,
        element: ElementType,
    )
        requires { (A.offset at + length source.now ≤ length self.old.bytes.now) × (length source.now % 4 ≡ 0) }
        ensures same_reference { IsSame self.old.bytes self.new.bytes }
        ensures combined { self.new.bytes.now ≡ write self.old.bytes.now (A.offset at) (reduce operation element (read self.old.bytes.now (A.offset at) (length source.now)) source.now) }
    {
        let start = at.offset();
        let end = start + source.len();
        reduction::reduce(&mut self.bytes[start..end], source, operation, element);
    }
}

// Copies the source to the destination; the bytes not read are zero.
fn copy_padded(source: &[u8], destination: &mut [u8])
    requires { length source.now ≤ length destination.old }
    ensures { destination.new ≡ padded (length destination.old) source.now }
{
    let count = source.len();
    copy_all(source, &mut destination[..count]);
    destination[count..].fill(0);
}

// Copies as many bytes as the destination has. A loop, and not `copy_from_slice`, whose memmove the header does not ask a C
// host for; by index, since the proof did not close over a zip of `iter_mut`, after which nothing is known of what it lent.
pub(crate) fn copy_all(source: &[u8], destination: &mut [u8])
    requires { length destination.old ≡ length source.now }
    ensures { destination.new ≡ source.now }
{
    for (index, byte) in source.iter().enumerate() {
        destination[index] = *byte;
    }
}
