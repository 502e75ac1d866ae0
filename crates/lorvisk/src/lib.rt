// The C boundary: the functions that hosts in other languages call (include/lorvisk.h). A slice is handed over as a pointer
// and a length; an answer crosses as its word, 0 being no verdict.

#![tactic(auto)]

ghost use Rattle.std.specs.Prelude.{◌≡◌};
ghost use Rattle.answer.specs.Sheet.{read_of, is_written, write_leaves};
ghost use Rattle.rules.specs.Answers.{answer_of_file};
ghost use Rattle.run.specs.Running.{lent};
ghost use Rattle.word.specs.Word.{packed, unpacked};
ghost use Rattle.lorvisk.specs.Boundary.{RanAs};

use answer::Answer;

// By this the sheet's writer says that it has written. It is no verdict, and does not cross.
const WRITTEN: Answer = Answer::Accepted { events: 0, peak: 0 };

// The answer of a trace file.
#[unsafe(no_mangle)]
pub extern "C" fn lorvisk_judge_file(file: &[u8]) -> u64
    ensures { result ≡ packed (answer_of_file file.now) }
{
    word::pack(judge::judge(file))
}

// Runs a trace file over two memories and a load record. A refusal changes none of the three.
#[unsafe(no_mangle)]
pub extern "C" fn lorvisk_run_file(
    file: &[u8],
    global: &mut [u8],
    shared: &mut [u8],
    loads: &mut [u8],
) -> u64
    ensures { RanAs file.now (lent global.old shared.old loads.old) result (lent global.new shared.new loads.new) }
{
    word::pack(run::run(file, global, shared, loads))
}

// Writes the sheet of the answer with this word to the start of what is lent, and says whether it has. Too little lent, or
// a word that is no verdict's, and nothing is written.
#[unsafe(no_mangle)]
pub extern "C" fn lorvisk_write_sheet(word: u64, out: &mut [u8]) -> bool
    ensures value { result ≡ is_written (unpacked word) out.old }
    ensures out_after { out.new ≡ write_leaves (unpacked word) out.old }
{
    let said = answer::write_sheet(word::unpack(word), out);
    said == WRITTEN
}

// The answer on a sheet; no verdict where the bytes are no sheet.
#[unsafe(no_mangle)]
pub extern "C" fn lorvisk_read_sheet(sheet: &[u8]) -> u64
    ensures { result ≡ packed (read_of sheet.now) }
{
    word::pack(answer::read_sheet(sheet))
}
