// What a wait leaves in the table.
ghost use Rattle.std.specs.Prelude.{◌≡◌, ◌+◌, ◌*◌, ◌≤◌, length};
ghost use Rattle.operations.specs.Table.{records, range_words, mark_words, placed};
ghost use Rattle.operations.specs.Waiting.{stays_open, kept};

use crate::table::{put, record_at};
use crate::tag::chain_in;
use crate::{Record, Wait};

// Whether the wait leaves the operation open: one of another chain, or with no more groups made since than stay open.
#[tactic(auto, unfolding(crate::specs::Waiting::stays_open))]
fn stays_open(wait: Wait, operation: Record) -> bool
    ensures { result ≡ stays_open wait operation }
{
    let since = wait.commits.saturating_sub(operation.commits);
    (chain_in(operation.tag) != wait.chain) | (since <= wait.newest)
}

// Takes the closed operations out of the first `count` records and returns how many stay. They come first, in order, and
// the words past them are left. By index, since a record is words of two places and no element of a slice.
pub fn close(ranges: &mut [u32], marks: &mut [u32], count: u32, wait: Wait) -> u32
    requires { (4 * count ≤ length ranges.old) × (4 * count ≤ length marks.old) }
    ensures value { result ≡ length (kept wait (records count ranges.old marks.old)) }
    ensures ranges_after { ranges.new ≡ placed range_words (kept wait (records count ranges.old marks.old)) ranges.old }
    ensures marks_after { marks.new ≡ placed mark_words (kept wait (records count ranges.old marks.old)) marks.old }
{
    let mut stay = 0;
    for index in 0..count {
        let operation = record_at(ranges, marks, index);
        if stays_open(wait, operation) {
            put(ranges, marks, stay, operation);
            stay += 1;
        }
    }
    stay
}
