// Whether an event and an open operation clash.
ghost use Rattle.std.specs.Prelude.{◌≡◌, true, ◌↔◌};
ghost use Rattle.operations.specs.Clash.{ShareByte, clash_of};

use crate::tag::{may_share, written_in};
use crate::{Range, Record};

// Whether some byte is in both. The body stays in this form, which a later request replaces.
pub(crate) fn overlap(a: Range, b: Range) -> bool
    ensures { (result ≡ true) ↔ ShareByte a b }
{
    if a.length == 0 {
        return false;
    }
    if b.length == 0 {
        return false;
    }
    if a.start <= b.start {
        b.start - a.start < a.length
    } else {
        a.start - b.start < b.length
    }
}

// Two records that write the same memory read the other one, so they can meet only in what both write; others, only in
// what one writes and the other reads.
pub(crate) fn clashes(event: Record, operation: Record) -> bool
    ensures { result ≡ clash_of event operation }
{
    if may_share(event.tag, operation.tag) {
        return false;
    }
    if written_in(event.tag) == written_in(operation.tag) {
        return overlap(event.writes, operation.writes);
    }
    overlap(event.writes, operation.reads) | overlap(event.reads, operation.writes)
}
