// The records of the table, and the search in it.
ghost use Rattle.std.specs.Prelude.{◌≡◌, ◌+◌, ◌*◌, ◌≤◌, ◌<◌, length};
ghost use Rattle.std.proofs.lemmas.List.Edits.{sets};
ghost use Rattle.operations.specs.Table.{record_at, records, range_words, mark_words};
ghost use Rattle.operations.specs.Clash.{first_clash};

use crate::clash::clashes;
use crate::{Range, Record};

// So many words has a record in either place.
const WORDS: usize = 4;

pub(crate) fn record_at(ranges: &[u32], marks: &[u32], index: u32) -> Record
    requires { (4 * index + 4 ≤ length ranges.now) × (4 * index + 4 ≤ length marks.now) }
    ensures { result ≡ record_at ranges.now marks.now index }
{
    let word = WORDS * (index as usize);
    Record {
        writes: Range {
            start: ranges[word],
            length: ranges[word + 1],
        },
        reads: Range {
            start: ranges[word + 2],
            length: ranges[word + 3],
        },
        event: marks[word],
        commits: marks[word + 1],
        tag: marks[word + 2],
    }
}

// Puts a record at an index. The last of its marks is to spare.
pub fn put(ranges: &mut [u32], marks: &mut [u32], index: u32, operation: Record)
    requires { (4 * index + 4 ≤ length ranges.old) × (4 * index + 4 ≤ length marks.old) }
    ensures ranges_after { ranges.new ≡ sets ranges.old (4 * index) (range_words operation) }
    ensures marks_after { marks.new ≡ sets marks.old (4 * index) (mark_words operation) }
{
    let word = WORDS * (index as usize);
    ranges[word] = operation.writes.start;
    ranges[word + 1] = operation.writes.length;
    ranges[word + 2] = operation.reads.start;
    ranges[word + 3] = operation.reads.length;
    marks[word] = operation.event;
    marks[word + 1] = operation.commits;
    marks[word + 2] = operation.tag;
    marks[word + 3] = 0;
}

// The event of the first record, of so many, that the event clashes with: with records in event order, the lowest.
pub fn first_clash(ranges: &[u32], marks: &[u32], count: u32, event: Record) -> Option<u32>
    requires { (4 * count ≤ length ranges.now) × (4 * count ≤ length marks.now) }
    ensures { result ≡ first_clash event (records count ranges.now marks.now) }
{
    (0..count)
        .map(|index| record_at(ranges, marks, index))
        .find(|operation| clashes(event, *operation))
        .map(|operation| operation.event)
}
