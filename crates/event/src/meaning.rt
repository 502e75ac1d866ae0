// The numbers that stand for operations, types and caches (document 01).
ghost use Rattle.std.specs.Prelude.{◌≡◌};
ghost use Rattle.event.specs.Fields.{operation_number, type_number};
ghost use Rattle.event.specs.Meaning.{operations, types, caches, meant_by};

use crate::{Cache, ElementType, Operation};

// What a number is where it stands for nothing.
#[derive(Clone, Copy, PartialEq, Eq)]
pub struct NoMeaning;

impl From<Operation> for u32 {
    ghost from_gives = { λ operation number. number ≡ operation_number operation };

    fn from(operation: Operation) -> u32 {
        match operation {
            Operation::And => 0,
            Operation::Or => 1,
            Operation::Xor => 2,
            Operation::Add => 3,
            Operation::Min => 4,
            Operation::Max => 5,
        }
    }
}

impl TryFrom<u8> for Operation {
    type Error = NoMeaning;

    ghost try_from_gives = { λ number outcome. outcome ≡ meant_by operations number };

    fn try_from(number: u8) -> Result<Operation, NoMeaning> {
        match number {
            0 => Ok(Operation::And),
            1 => Ok(Operation::Or),
            2 => Ok(Operation::Xor),
            3 => Ok(Operation::Add),
            4 => Ok(Operation::Min),
            5 => Ok(Operation::Max),
            _ => Err(NoMeaning),
        }
    }
}

impl From<ElementType> for u32 {
    ghost from_gives = { λ element number. number ≡ type_number element };

    fn from(element: ElementType) -> u32 {
        match element {
            ElementType::B32 => 0,
            ElementType::U32 => 1,
            ElementType::S32 => 2,
        }
    }
}

impl TryFrom<u8> for ElementType {
    type Error = NoMeaning;

    ghost try_from_gives = { λ number outcome. outcome ≡ meant_by types number };

    fn try_from(number: u8) -> Result<ElementType, NoMeaning> {
        match number {
            0 => Ok(ElementType::B32),
            1 => Ok(ElementType::U32),
            2 => Ok(ElementType::S32),
            _ => Err(NoMeaning),
        }
    }
}

impl TryFrom<u8> for Cache {
    type Error = NoMeaning;

    ghost try_from_gives = { λ number outcome. outcome ≡ meant_by caches number };

    fn try_from(number: u8) -> Result<Cache, NoMeaning> {
        match number {
            0 => Ok(Cache::Ca),
            1 => Ok(Cache::Cg),
            _ => Err(NoMeaning),
        }
    }
}
