// Numbers as a line of text: in decimal, with one space between and a newline after the last.

#![tactic(auto)]

ghost use Rattle.std.specs.Prelude.{◌≡◌, cond, ◌++◌, ◌∷◌, ◌+◌, ◌*◌, ◌≤◌, ◌<◌, eqb, length, take, drop, OnOk};
ghost use Rattle.std.specs.Io.KnownBytes.{Appends};
ghost use Rattle.answer.specs.Numbers.{numbers_of};
ghost use Rattle.line.specs.Text.{IsPrefixLen, decimal_of, in_line, line_of, count_of, leaves_of, named_count, named_leaves};

use answer::Answer;
use itoa::Buffer;
use std::io;
use std::io::Write;

// Ten digits and what ends them.
pub const NUMBER_LENGTH: usize = 11;

// The longest line of an answer, which has four numbers.
pub const LINE_LENGTH: usize = 4 * NUMBER_LENGTH;

// Code, event, partner and peak. No `From`: neither type is of this crate.
pub fn answer_numbers(answer: Answer) -> [u32; 4]
    ensures { result ≡ in_line (numbers_of answer) }
{
    let numbers = answer.numbers();
    [numbers.code, numbers.event, numbers.partner, numbers.peak]
}

// One write, so that a pipe has the line whole or not at all.
pub fn write_line<W: Write>(writer: &mut W, numbers: &[u32]) -> io::Result<()>
    requires { length numbers.now ≤ 4 }
    ensures { OnOk result (Appends (W.contents writer.old) (W.contents writer.new) (line_of numbers.now)) }
{
    let mut line = [0u8; LINE_LENGTH];
    let length = lay_out(numbers, &mut line);
    writer.write_all(&line[..length])
}

// Puts the line at the start of what is lent and returns its length. With less lent than each number may need, nothing is
// written and the length is 0 (clause `value`: what cannot fail has no `Option`). Two parameters: every byte of `out` is promised
// for these numbers.
pub fn lay_out(numbers: &[u32], out: &mut [u8]) -> usize
    ensures value { result ≡ count_of numbers.now out.old }
    ensures out_after { out.new ≡ leaves_of numbers.now out.old }
    ensures prefix_len { IsPrefixLen result out.new }
{
    if numbers.len() <= out.len() / NUMBER_LENGTH {
        put_all(numbers, out)
    } else {
        0
    }
}

// The same with a name and a space before the numbers, and the same length 0 where nothing is written (clause `value`).
pub fn lay_out_named(name: &[u8], numbers: &[u32], out: &mut [u8]) -> usize
    ensures value { result ≡ named_count name.now numbers.now out.old }
    ensures out_after { out.new ≡ named_leaves name.now numbers.now out.old }
    ensures prefix_len { IsPrefixLen result out.new }
{
    if out.len() <= name.len() {
        return 0;
    }
    let start = name.len() + 1;
    if (out.len() - start) / NUMBER_LENGTH < numbers.len() {
        return 0;
    }
    out[..name.len()].copy_from_slice(name);
    out[name.len()] = b' ';
    start + lay_out(numbers, &mut out[start..])
}

// The line is laid out in what is lent and by no `Display`: no write can fail here, and a name need not be text.
fn put_all(numbers: &[u32], out: &mut [u8]) -> usize
    requires { 11 * length numbers.now ≤ length out.old }
    ensures value { result ≡ length (line_of numbers.now) }
    ensures out_after { out.new ≡ line_of numbers.now ++ drop result out.old }
    ensures upper_bound { result ≤ length out.new }
{
    // An index that goes from turn to turn, and no rest of the slice: see `put`.
    let mut at: usize = 0;
    for (i, number) in numbers.iter().enumerate() {
        at = put(out, at, *number, end_of(i, numbers.len()));
    }
    at
}

// What ends number i of so many.
fn end_of(i: usize, count: usize) -> u8
    requires { i < count }
    ensures { result ≡ cond (eqb (i + 1) count) 10 32 }
{
    if i + 1 == count { b'\n' } else { b' ' }
}

// Puts a number's digits and what ends it into the line from index `at` on, and returns the index past them: an index and no
// rest of the slice, since the promise is of the whole line.
fn put(line: &mut [u8], at: usize, number: u32, end: u8) -> usize
    requires { at + 11 ≤ length line.old }
    ensures past { result ≡ at + length (decimal_of number) + 1 }
    ensures laid { line.new ≡ take at line.old ++ (decimal_of number ++ end ∷ drop result line.old) }
    ensures within { result ≤ at + 11 }
{
    let mut buffer = Buffer::new();
    let digits = buffer.format(number).as_bytes();
    let past = at + digits.len();
    line[at..past].copy_from_slice(digits);
    line[past] = end;
    past + 1
}
