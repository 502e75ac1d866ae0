// Loads and stores by the thread.
ghost use Rattle.std.specs.Prelude.{◌≡◌, ◌+◌, ◌≤◌, length, take};
ghost use Rattle.event.specs.Fields.{value_bytes};
ghost use Rattle.event.specs.Addresses.{offset_of};
ghost use Rattle.effect.specs.Memory.{get, put, initial};
ghost use Rattle.rules.specs.Events.{memory_of};
ghost use Rattle.rules.specs.Faults.{length_of};
ghost use Rattle.moves.specs.Acting.{IsSame};

use crate::memory::{Global, Shared, copy_all};
use event::Address;

// Reads `size` bytes into what is lent of the record.
pub(crate) fn load(
    address: Address,
    size: u32,
    global: &Global<'_>,
    shared: &Shared<'_>,
    to: &mut [u8],
)
    requires size_in_bounds { offset_of address + size ≤ length_of (record { global = length global.now.bytes.now; shared = length shared.now.bytes.now }) (memory_of address) }
    requires to_len { length to.old ≡ size }
    ensures { to.new ≡ get (memory_of address) (offset_of address) size (initial global.now.bytes.now shared.now.bytes.now 1) }
{
    match address {
        Address::Global(at) => copy_all(global.part(at, size), to),
        Address::Shared(at) => copy_all(shared.part(at, size), to),
    }
}

// Writes the first `size` of the value bytes.
pub(crate) fn store(
    address: Address,
    size: u32,
    low: u64,
    high: u64,
    global: &mut Global<'_>,
    shared: &mut Shared<'_>,
)
    requires size_in_bounds { offset_of address + size ≤ length_of (record { global = length global.old.bytes.now; shared = length shared.old.bytes.now }) (memory_of address) }
    requires size_bound { size ≤ 16 }
    ensures same_global { IsSame global.old.bytes global.new.bytes }
    ensures same_shared { IsSame shared.old.bytes shared.new.bytes }
    ensures stored { initial global.new.bytes.now shared.new.bytes.now 1 ≡ put (memory_of address) (offset_of address) (take size (value_bytes low high)) (initial global.old.bytes.now shared.old.bytes.now 1) }
{
    let value = value_bytes(low, high);
    let length = size as usize;
    match address {
        Address::Global(at) => global.write(at, &value[..length]),
        Address::Shared(at) => shared.write(at, &value[..length]),
    }
}

// The sixteen value bytes of a store.
fn value_bytes(low: u64, high: u64) -> [u8; 16]
    ensures { result ≡ value_bytes low high }
{
    let mut value = [0u8; 16];
    little_endian::put(&mut value, 0, 8, low);
    little_endian::put(&mut value, 8, 8, high);
    value
}
