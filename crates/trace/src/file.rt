// A file of the right shape, as far as its first bytes go, and the walk over its items.
ghost use Rattle.std.specs.Prelude.{◌≡◌, ◌≤◌, List, length, MatchResult};
ghost use Rattle.std.specs.Iterator.{YieldsFirst, item_count};
ghost use Rattle.answer.specs.Table.{event_limit};
ghost use Rattle.decoder.specs.Item.{Item};
ghost use Rattle.trace.specs.File.{refused, recorded};
ghost use Rattle.trace.specs.Beginning.{held_of, Listed, listed, HoldsTable, IsAtBody, items_from};

use crate::Header;
use crate::items::{entry_of, item_at};
use crate::table::{entry_at, shape_of};
use answer::Answer;
use std::marker::Model;
use std::ops::Range;

// A file of the shape that document 01 asks for, by its first bytes, which hold its table. It is seen as what they say.
#[derive(Drop)]
pub struct File<'a> {
    beginning: &'a [u8],
    header: Header,
}

impl<'a> Model for File<'a> {
    ghost Value = { Listed };

    ghost view = { λ f. listed f.beginning.now f.header };

    ghost invariant = { λ f. HoldsTable f.beginning.now f.header.events };
}

// The file, or the refusal of its shape. No file has more first bytes than bytes. The two parameters stay side by side, as
// docs/ name them for `shape_of`, `check`, `judge_beginning` and `run_beginning`: `total` is not the slice's own length.
pub fn open(beginning: &[u8], total: usize) -> Result<File<'_>, Answer>
    ensures { MatchResult result (λ file. held_of event_limit beginning.now total ≡ recorded file.header file.items) (λ refusal. held_of event_limit beginning.now total ≡ refused refusal) }
{
    let header = shape_of(beginning, total)?;
    Ok(File { beginning, header })
}

impl<'a> File<'a> {
    pub fn header(&self) -> Header
        ensures value { result ≡ self.now.header }
        ensures item_each { length self.now.items ≡ result.events }
    {
        self.header
    }

    // An item for each event, in event order.
    pub fn items(&self) -> Items<'a>
        ensures all { result ≡ self.now.items }
        ensures few { length result ≤ event_limit }
    {
        let events = self.header.events;
        Items {
            beginning: self.beginning,
            events: 0..events,
            start: entry_at(events),
        }
    }
}

// The items of a file, seen as those that are left: of `events`, with the body of the first at index `start`.
#[derive(Drop)]
pub struct Items<'a> {
    beginning: &'a [u8],
    events: Range<u32>,
    start: usize,
}

impl<'a> Model for Items<'a> {
    ghost Value = { List Item };

    ghost view = { λ w. items_from w.beginning.now w.events.end w.events.start };

    ghost invariant = { λ w. IsAtBody w.beginning.now w.events.end w.events.start w.start };
}

impl<'a> Iterator for Items<'a> {
    type Item = decoder::Item;

    ghost next_gives = { YieldsFirst (λ left. left) };

    ghost remaining = { item_count (λ left. left) };

    fn next(&mut self) -> Option<decoder::Item> {
        let event = self.events.next()?;
        let entry = entry_of(self.beginning, event);
        // First on to the next body: what is still to do after the decoding would be kept over it.
        let start = self.start;
        self.start += entry.length as usize;
        Some(item_at(self.beginning, start, entry))
    }
}
