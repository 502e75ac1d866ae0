// The verdict sheet: twelve bytes, table first, the code last.
ghost use Rattle.std.specs.Prelude.{◌≡◌, length};
ghost use Rattle.answer.specs.Sheet.{numbers_at, laid_out, read_of, write_answer, write_leaves};

use crate::{Answer, Numbers};
use little_endian::{number_at, put};

pub const SHEET_LENGTH: usize = 12;

// The sheet's own table: where its body starts ..
pub const BODY_AT: usize = 4;

// .. and how long that is.
pub const BODY_LENGTH: usize = 8;

// The answer on a sheet; no verdict, and not `None`, where the bytes are no sheet (document 01; theorem OtherLengths).
pub fn read_sheet(sheet: &[u8]) -> Answer
    ensures { result ≡ read_of sheet.now }
{
    if sheet.len() != SHEET_LENGTH {
        return Answer::NoVerdict;
    }
    let numbers = numbers_at(sheet);
    let body_at = usize::from(number_at::<u16>(sheet, 0));
    let body_length = usize::from(number_at::<u16>(sheet, 2));
    if (body_at == BODY_AT) & (body_length == BODY_LENGTH) & numbers.fit() {
        numbers.answer()
    } else {
        Answer::NoVerdict
    }
}

// Writes an answer's sheet to the start of what is lent. Too little lent, or an answer that the reader would not give,
// and nothing is written. What it says is an answer and no `Result` by document 01 (theorem WritesWhatIsGiven).
pub fn write_sheet(answer: Answer, out: &mut [u8]) -> Answer
    ensures value { result ≡ write_answer answer out.old }
    ensures out_after { out.new ≡ write_leaves answer out.old }
{
    let numbers = answer.numbers();
    if (SHEET_LENGTH <= out.len()) & numbers.fit() {
        let sheet = laid_out(numbers);
        out[..SHEET_LENGTH].copy_from_slice(&sheet);
        Answer::Accepted { events: 0, peak: 0 }
    } else {
        Answer::NotWritten
    }
}

// The code comes last, so that a cut leaves it zero.
fn laid_out(numbers: Numbers) -> [u8; SHEET_LENGTH]
    ensures { result ≡ laid_out numbers }
{
    let mut sheet = [0; SHEET_LENGTH];
    put(&mut sheet, 0, 2, BODY_AT as u64);
    put(&mut sheet, 2, 2, BODY_LENGTH as u64);
    put(&mut sheet, 4, 2, u64::from(numbers.event));
    put(&mut sheet, 6, 2, u64::from(numbers.partner));
    put(&mut sheet, 8, 2, u64::from(numbers.peak));
    put(&mut sheet, 10, 2, u64::from(numbers.code));
    sheet
}

fn numbers_at(sheet: &[u8]) -> Numbers
    requires { length sheet.now ≡ 12 }
    ensures { result ≡ numbers_at sheet.now }
{
    Numbers {
        event: u32::from(number_at::<u16>(sheet, 4)),
        partner: u32::from(number_at::<u16>(sheet, 6)),
        peak: u32::from(number_at::<u16>(sheet, 8)),
        code: u32::from(number_at::<u16>(sheet, 10)),
    }
}
