// The shape of a file: its header, its table and its length.
ghost use Rattle.std.specs.Prelude.{◌≡◌, ◌≤◌, length};
ghost use Rattle.answer.specs.Table.{event_limit};
ghost use Rattle.trace.specs.File.{events_in, header_in, entry_at, is_shape, shape_of};

use crate::Header;
use answer::{Answer, EVENT_LIMIT};
use little_endian::number_at;

pub(crate) const HEADER_LENGTH: usize = 12;

pub(crate) const ENTRY_LENGTH: usize = 4;

pub const MEMORY_LIMIT: u32 = 65536;

// The header of a file of the shape that document 01 asks for, or its refusal. No file has more first bytes than bytes.
pub fn shape_of(beginning: &[u8], total: usize) -> Result<Header, Answer>
    ensures { result ≡ shape_of event_limit beginning.now total }
{
    if beginning.len() < HEADER_LENGTH || total < beginning.len() {
        return Err(Answer::WrongShape);
    }
    let header = header_in(beginning);
    if EVENT_LIMIT < header.events {
        return Err(Answer::TooManyEvents);
    }
    if !is_shape(beginning, header.events, total) {
        return Err(Answer::WrongShape);
    }
    if (header.global <= MEMORY_LIMIT) & (header.shared <= MEMORY_LIMIT) {
        Ok(header)
    } else {
        Err(Answer::WrongMemoryLength)
    }
}

// Where the entry of an event starts. The bodies start where the entry past the last one would.
pub fn entry_at(event: u32) -> usize
    ensures { result ≡ entry_at event }
{
    HEADER_LENGTH + ENTRY_LENGTH * (event as usize)
}

fn header_in(beginning: &[u8]) -> Header
    requires { 12 ≤ length beginning.now }
    ensures { result ≡ header_in beginning.now }
{
    Header {
        events: u32::from(number_at::<u16>(beginning, 0)),
        global: number_at(beginning, 4),
        shared: number_at(beginning, 8),
    }
}

// Whether the table is held, the file's length is what it says, and the reserved bytes are zero.
fn is_shape(beginning: &[u8], events: u32, total: usize) -> bool
    requires { events ≡ events_in beginning.now }
    ensures { result ≡ is_shape beginning.now total }
{
    let bodies = entry_at(events);
    let Some(table) = beginning.get(HEADER_LENGTH..bodies) else {
        return false;
    };
    let (entries, _) = table.as_chunks::<ENTRY_LENGTH>();
    let lengths: usize = entries
        .iter()
        .map(|entry| usize::from(number_at::<u16>(entry, 2)))
        .sum();
    (total == bodies + lengths)
        & (number_at::<u16>(beginning, 2) == 0)
        & entries.iter().all(|entry| entry[1] == 0)
}
