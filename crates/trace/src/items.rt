// The items of a file, one for each event.
ghost use Rattle.std.specs.Prelude.{◌≡◌, ◌+◌, ◌≤◌, ◌<◌, length, take, drop, MatchOption, Ok};
ghost use Rattle.answer.specs.Table.{event_limit};
ghost use Rattle.trace.specs.Beginning.{entry_in, held_item, or_fault, check_of};

use crate::file::{File, open};
use crate::table::{ENTRY_LENGTH, HEADER_LENGTH, entry_at};
use crate::{Entry, Header};
use answer::{Answer, EVENT_LIMIT};
use decoder::{Item, LONGEST_BODY};
use little_endian::number_at;

// So many first bytes of a file, with its length, decide on `check` and on the answers of a judge and of a run: the header,
// and for each event its entry and the longest body.
pub const ENOUGH: usize = HEADER_LENGTH + (ENTRY_LENGTH + LONGEST_BODY) * (EVENT_LIMIT as usize);

// The header of a file all of whose events decode, or the first of 2 to 7 that the file gets.
pub fn check(beginning: &[u8], total: usize) -> Result<Header, Answer>
    ensures { result ≡ check_of event_limit beginning.now total }
{
    let file = open(beginning, total)?;
    check_items(&file)
}

fn check_items(file: &File<'_>) -> Result<Header, Answer>
    ensures { result ≡ or_fault 0 file.now.items (Ok file.now.header) }
{
    for (event, item) in file.items().enumerate() {
        let Ok(_) = item else {
            return Err(decoder::refusal(item, event as u32));
        };
    }
    Ok(file.header())
}

// The entry of an event; where there is none, kind 0, which no event has. (No Option: its clause promises `entry_in`.)
pub fn entry_of(beginning: &[u8], event: u32) -> Entry
    ensures { result ≡ entry_in beginning.now event }
{
    let at = entry_at(event);
    if at + ENTRY_LENGTH <= beginning.len() {
        Entry {
            kind: beginning[at],
            length: u32::from(number_at::<u16>(beginning, at + 2)),
        }
    } else {
        Entry { kind: 0, length: 0 }
    }
}

// The item of the entry whose body starts at index `start`.
pub fn item_at(beginning: &[u8], start: usize, entry: Entry) -> Item
    ensures { result ≡ held_item beginning.now start entry }
{
    match held_part(beginning, start, entry.length as usize) {
        Some(body) => decoder::decode(entry.kind, body),
        None => decoder::overlong(entry.kind),
    }
}

// So many bytes from index `start` on, where they are held to their end.
fn held_part(beginning: &[u8], start: usize, size: usize) -> Option<&[u8]>
    ensures { MatchOption result (length beginning.now < start + size) (λ part. (start + size ≤ length beginning.now) × (part.now ≡ take size (drop start beginning.now))) }
{
    beginning.get(start..)?.get(..size)
}
