// A reduction, on the bytes that are lent to it (document 01): each 4-byte element is set to destination combined with
// source.

#![tactic(auto)]

mod element;

ghost use Rattle.std.specs.Prelude.{◌≡◌, ◌+◌, ◌%◌, ◌≤◌, length, drop};
ghost use Rattle.std.proofs.lemmas.List.Edits.{sets};
ghost use Rattle.little_endian.specs.Number.{bytes_of};
ghost use Rattle.effect.specs.Element.{element_in, is_signed, combined, reduce};

use element::combined;
use event::{ElementType, Operation};
use little_endian::number_at;

// The bytes of an element.
const WIDTH: usize = 4;

// Combines each element of the destination with the same one of the source. The two stay side by side: one is written, and the
// other is read.
pub fn reduce(destination: &mut [u8], source: &[u8], operation: Operation, element: ElementType)
    requires { (length source.now ≡ length destination.old) × (length destination.old % 4 ≡ 0) }
    ensures { destination.new ≡ reduce operation element destination.old source.now }
{
    // By number: the proof did not close over `chunks_exact_mut`, after which nothing is known of the bytes that it lent.
    for index in 0..destination.len() / WIDTH {
        reduce_at(destination, source, index * WIDTH, operation, element);
    }
}

// The same of the element that starts at index `at`.
fn reduce_at(
    destination: &mut [u8],
    source: &[u8],
    at: usize,
    operation: Operation,
    element: ElementType,
)
    requires { (at + 4 ≤ length destination.old) × (at + 4 ≤ length source.now) }
    ensures { destination.new ≡ sets destination.old at (bytes_of 4 (combined operation (is_signed element) 4 (element_in 4 (drop at destination.old)) (element_in 4 (drop at source.now)))) }
{
    let number = combined(
        operation,
        element,
        number_at(destination, at),
        number_at(source, at),
    );
    little_endian::put(destination, at, WIDTH, u64::from(number));
}
