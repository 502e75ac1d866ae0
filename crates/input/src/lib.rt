// An input of any length: its first bytes are kept, and all are counted.

#![tactic(auto)]

ghost use Rattle.std.specs.Prelude.{◌≡◌, Some, IfOk, IsUtf8, pos};
ghost use Rattle.std.specs.IoError.{raw_os_error};
ghost use Rattle.std.specs.Result.{result_ok};
ghost use Rattle.input.specs.Held.{Held, HeldOf, kept_in};

use std::fs::File;
use std::io::{ErrorKind, Read};
use std::rt::Files;
use std::{io, str};

// No path is longer, the zero behind it counted.
pub const PATH_MAX: usize = 4096;

// So many bytes are asked for at once.
const PIECE_LENGTH: usize = 65536;

// The system's number of the error that a name is longer than any path. A number and no `ErrorKind`: the programs print the
// system's own words for it.
const NAME_TOO_LONG: i32 = 36;

// An input that was read to its end: the first `held` of what was lent are its first bytes; `total` is its length. A length and
// no part of what was lent: a run lends those bytes on to be written.
#[derive(Clone, Copy)]
pub struct Whole {
    pub held: usize,
    pub total: usize,
}

// Opens the file of this name. A path of the library's is text: no file can be opened by a name that is not UTF-8.
pub fn open<R: Files>(files: &R, name: &[u8]) -> io::Result<R::File>
    ensures { IfOk result (λ _. IsUtf8 name.now) }
{
    match str::from_utf8(name) {
        Ok(path) => File::open(files, path),
        Err(_) => Err(io::Error::new(ErrorKind::InvalidFilename, "the name is not UTF-8")),
    }
}

// Reads to the end of the input. A proved loop has to end, and nothing says that an input does: past so many pieces it is
// an error.
pub fn read<R: Read>(reader: &mut R, beginning: &mut [u8]) -> io::Result<Whole>
    ensures held { IfOk result (λ whole. Held whole beginning.old beginning.new) }
    ensures bytes { IfOk result (λ whole. HeldOf whole (R.remaining reader.old) beginning.old beginning.new) }
{
    let mut total: usize = 0;
    for _ in 0..u32::MAX {
        let mut piece = [0u8; PIECE_LENGTH];
        let count = reader.read(&mut piece)?;
        if count == 0 {
            let held = total.min(beginning.len());
            return Ok(Whole { held, total });
        }
        keep(&piece[..count], total, beginning);
        total += count;
    }
    Err(io::Error::other("the input does not end"))
}

// Puts as much of a piece as has room into the beginning, from index `at` on.
fn keep(piece: &[u8], at: usize, beginning: &mut [u8])
    ensures { beginning.new ≡ kept_in piece.now at beginning.old }
{
    if at < beginning.len() {
        let count = piece.len().min(beginning.len() - at);
        beginning[at..at + count].copy_from_slice(&piece[..count]);
    }
}

// The error of a name that is longer than any path.
pub fn name_too_long() -> io::Error
    ensures { raw_os_error result ≡ Some (pos 36) }
{
    io::Error::from_raw_os_error(NAME_TOO_LONG)
}

// What came of the file of this name; where that is an error, a line on standard error says which: it needs both the handle and
// the name. Of a write that fails there nobody is left to tell.
pub fn ok_or_report<T: Drop>(rt: &HostRuntime, name: &[u8], outcome: io::Result<T>) -> Option<T>
    ensures { result ≡ result_ok outcome }
{
    match outcome {
        Ok(value) => Some(value),
        Err(error) => {
            let _ = rt.stderr().write_all(name);
            let _ = eprintln!(rt; ": {error}");
            None
        }
    }
}
