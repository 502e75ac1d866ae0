// One element combined with another.
ghost use Rattle.std.specs.Prelude.{◌≡◌};
ghost use Rattle.effect.specs.Element.{is_signed, combined};

use event::{ElementType, Operation};

// Destination combined with source. Chosen anew for each element: a closure for each choice would be eight loops for this
// one, and `reduce` no shorter.
pub(crate) fn combined(
    operation: Operation,
    element: ElementType,
    destination: u32,
    source: u32,
) -> u32
    ensures { result ≡ combined operation (is_signed element) 4 destination source }
{
    match (operation, element) {
        (Operation::And, _) => destination & source,
        (Operation::Or, _) => destination | source,
        (Operation::Xor, _) => destination ^ source,
        (Operation::Add, _) => destination.wrapping_add(source),
        (Operation::Min, ElementType::S32) => {
            let least = destination.cast_signed().min(source.cast_signed());
            least.cast_unsigned()
        }
        (Operation::Max, ElementType::S32) => {
            let greatest = destination.cast_signed().max(source.cast_signed());
            greatest.cast_unsigned()
        }
        (Operation::Min, ElementType::B32 | ElementType::U32) => destination.min(source),
        (Operation::Max, ElementType::B32 | ElementType::U32) => destination.max(source),
    }
}
