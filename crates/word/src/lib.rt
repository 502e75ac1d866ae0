// An answer as one number of 64 bits, its word: the form in which it crosses to a host in another language.

#![tactic(auto)]

ghost use Rattle.std.specs.Prelude.{◌≡◌};
ghost use Rattle.word.specs.Word.{packed, unpacked};

use answer::{Answer, BODY_AT, BODY_LENGTH, SHEET_LENGTH};
use little_endian::{number_at, put};

// A word is the body of a sheet, turned by the bits of its code. The body ends with that, and a word begins with it:
// whatever narrower number a host keeps a word in, the code is still there.
const CODE_BITS: u32 = 16;

// The word of an answer; 0 where no sheet holds it.
pub fn pack(answer: Answer) -> u64
    ensures { result ≡ packed answer }
{
    let mut sheet = [0u8; SHEET_LENGTH];
    answer::write_sheet(answer, &mut sheet);
    let body: u64 = number_at(&sheet, BODY_AT);
    body.rotate_left(CODE_BITS)
}

// The answer of a word; no verdict where it is no answer's. (No Option: its clause promises `unpacked`, an answer for every
// word, of which theorems `Unpacks` and `ZeroIsNoVerdict` speak and which docs/SIGNATURE.md names.)
pub fn unpack(word: u64) -> Answer
    ensures { result ≡ unpacked word }
{
    let mut sheet = [0; SHEET_LENGTH];
    // a sheet's table: where its body starts, and how long that is
    put(&mut sheet, 0, 2, BODY_AT as u64);
    put(&mut sheet, 2, 2, BODY_LENGTH as u64);
    let body = word.rotate_right(CODE_BITS);
    put(&mut sheet, BODY_AT, BODY_LENGTH, body);
    answer::read_sheet(&sheet)
}
