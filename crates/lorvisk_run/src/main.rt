// Runs trace files. Arguments in fours: the names of a trace file, of its global and its shared memory, and of a load
// record, whose length is its room. For each four, on standard output: the verdict sheet and, only where the file is
// accepted, the load record, the global and the shared memory as the run leaves them. No file is changed. Where one cannot
// be read to its end there is no verdict: twelve zero bytes, and a line on standard error. The library opens no file whose name
// is not UTF-8. Memory is fixed: arrays of the longest length that matters.

#![tactic(auto)]

ghost use Rattle.std.specs.Prelude.{◌+◌, ◌^◌, ◌<◌, IfOk, IfSome};
ghost use Rattle.input.specs.Held.{Held};

use answer::{Answer, SHEET_LENGTH};
use input::{PATH_MAX, Whole};
use std::env::{Env, FillError};
use std::io;
use trace::{ENOUGH, MEMORY_LIMIT};

// A byte more than a memory may have: a longer file fills it, and has no length that a header may say.
const MEMORY_ROOM: usize = MEMORY_LIMIT as usize + 1;

// The longest load record that is taken. 1,024 loads of 16 bytes fill a quarter of it.
const RECORD_ROOM: usize = MEMORY_LIMIT as usize;

fn main(rt: HostRuntime) {
    let count = argument_count(&rt);
    // With a name too few or too many, every four after it would be made of the wrong files.
    if (count < 5) | (count % 4 != 1) {
        let _ = eprintln!(rt;
            "usage: lorvisk_run TRACE GLOBAL SHARED LOADS [TRACE GLOBAL SHARED LOADS].."
        );
        no_verdict(&rt);
        return;
    }
    for first in (1..count).step_by(4) {
        run_four(&rt, first);
    }
}

// How many arguments there are, and the program's own name before them. `env::args` would copy them to a heap.
fn argument_count(rt: &impl Env) -> usize {
    (0..usize::MAX)
        .find(|argument| matches!(rt.arg(*argument, &mut []), Err(FillError::NotPresent)))
        .unwrap_or(usize::MAX)
}

// The four files named from this argument on.
fn run_four(rt: &HostRuntime, argument: usize)
    requires { argument + 3 < 2 ^ 64 }
{
    let mut file = [0u8; ENOUGH];
    let mut global = [0u8; MEMORY_ROOM];
    let mut shared = [0u8; MEMORY_ROOM];
    let mut loads = [0u8; RECORD_ROOM];
    // All four are read first: each that cannot be has its line.
    let (Some(file_read), Some(global_read), Some(shared_read), Some(loads_read)) = (
        read(rt, argument, None, &mut file),
        read(rt, argument + 1, None, &mut global),
        read(rt, argument + 2, None, &mut shared),
        read(rt, argument + 3, Some(RECORD_ROOM), &mut loads),
    ) else {
        return no_verdict(rt);
    };
    run_lent(
        rt,
        &file[..file_read.held],
        file_read.total,
        &mut global[..global_read.held],
        &mut shared[..shared_read.held],
        &mut loads[..loads_read.held],
    );
}

// Nobody is left to tell of a write that fails.
fn run_lent(
    rt: &impl Print,
    beginning: &[u8],
    total: usize,
    global: &mut [u8],
    shared: &mut [u8],
    loads: &mut [u8],
) {
    let answer = run::run_beginning(beginning, total, global, shared, loads);
    let mut sheet = [0u8; SHEET_LENGTH];
    answer::write_sheet(answer, &mut sheet);
    let _ = rt.write_all(&sheet);
    if matches!(answer, Answer::Accepted { .. }) {
        let _ = rt.write_all(loads);
        let _ = rt.write_all(global);
        let _ = rt.write_all(shared);
    }
}

fn no_verdict(rt: &impl Print) {
    let sheet = [0u8; SHEET_LENGTH];
    let _ = rt.write_all(&sheet);
}

// Reads the file that an argument names; that there is one was seen before, so no end of them is told from an error, as the judge
// does. One that is not read has its line on standard error. No path is longer than the
// buffer, so of a longer name the line has the first bytes.
fn read(rt: &HostRuntime, argument: usize, most: Option<usize>, bytes: &mut [u8]) -> Option<Whole>
    ensures { IfSome result (λ whole. Held whole bytes.old bytes.new) }
{
    let mut name = [0u8; PATH_MAX];
    match rt.arg(argument, &mut name) {
        Ok(length) => {
            let name = &name[..length];
            input::ok_or_report(rt, name, read_named(rt, name, most, bytes))
        }
        Err(_) => input::ok_or_report(rt, &name, Err(input::name_too_long())),
    }
}

// Reads the file of this name, which has at most so many bytes, or any number.
fn read_named(
    rt: &HostRuntime,
    name: &[u8],
    most: Option<usize>,
    bytes: &mut [u8],
) -> io::Result<Whole>
    ensures { IfOk result (λ whole. Held whole bytes.old bytes.new) }
{
    let whole = input::read(&mut input::open(rt, name)?, bytes)?;
    match most {
        Some(most) if most < whole.total => Err(io::Error::other("more than 65536 bytes")),
        _ => Ok(whole),
    }
}
