// The trace file (document 01): header, table and bodies. A caller that holds only the beginning of a longer file hands that
// over with the file's length; the whole file is a beginning too. Its first body starts at `entry_at(events)` and each other
// where the one before ends, so that a walk over the events passes each byte once.

#![tactic(auto)]

mod file;
mod items;
mod table;

pub use file::{File, Items, open};
pub use items::{ENOUGH, check, entry_of, item_at};
pub use table::{MEMORY_LIMIT, entry_at, shape_of};

// The number of events and the lengths of the two memories.
#[derive(Clone, Copy)]
pub struct Header {
    pub events: u32,
    pub global: u32,
    pub shared: u32,
}

// An event's kind, the byte as it stands in the file, and the length of its body.
#[derive(Clone, Copy)]
pub struct Entry {
    pub kind: u8,
    pub length: u32,
}
