// A tag has four parts, each a digit of base 16, so that none is ever taken for another: the memory that is written, the
// chain that closes it, and, of a reduction, its operation and its type.
ghost use Rattle.std.specs.Prelude.{◌≡◌};
ghost use Rattle.operations.specs.Tag.{chain_digit, written_in, chain_in, reduction_in, tags_may_share};

use crate::Chain;

// What a digit of a tag is worth, the memory's being worth 1.
pub const CHAIN_PLACE: u32 = 16;

pub const OPERATION_PLACE: u32 = 256;

pub const TYPE_PLACE: u32 = 4096;

impl From<Chain> for u32 {
    ghost from_gives = { λ chain digit. digit ≡ chain_digit chain };

    fn from(chain: Chain) -> u32 {
        chain as u32
    }
}

pub(crate) fn written_in(tag: u32) -> u32
    ensures { result ≡ written_in tag }
{
    tag % CHAIN_PLACE
}

pub(crate) fn chain_in(tag: u32) -> u32
    ensures { result ≡ chain_in tag }
{
    tag % OPERATION_PLACE / CHAIN_PLACE
}

// Operation and type together; 0 is no reduction.
fn reduction_in(tag: u32) -> u32
    ensures { result ≡ reduction_in tag }
{
    tag / OPERATION_PLACE
}

// Whether the two are reductions of one operation and one type.
pub(crate) fn may_share(tag: u32, other: u32) -> bool
    ensures { result ≡ tags_may_share tag other }
{
    (reduction_in(tag) != 0) & (reduction_in(tag) == reduction_in(other))
}
