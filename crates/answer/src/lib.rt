// What the desk answers (document 01), and the verdict sheet that an answer is written on.

#![tactic(auto)]

mod sheet;
mod table;

ghost use Rattle.std.specs.Prelude.{◌≡◌};
ghost use Rattle.answer.specs.Numbers.{four, numbers_of, case_of};

pub use sheet::{BODY_AT, BODY_LENGTH, SHEET_LENGTH, read_sheet, write_sheet};

// The most events that a list may have.
pub const EVENT_LIMIT: u32 = 1024;

// A case for each code of the table, 0 to 12, with just the numbers that the table names.
#[derive(Clone, Copy, PartialEq, Eq)]
pub enum Answer {
    NoVerdict,
    Accepted { events: u32, peak: u32 },
    WrongShape,
    TooManyEvents,
    WrongMemoryLength,
    UnknownKind { event: u32 },
    WrongBodyLength { event: u32 },
    FieldNotAllowed { event: u32 },
    Misaligned { event: u32 },
    OutOfRange { event: u32 },
    Clash { event: u32, partner: u32 },
    NoRoom { event: u32 },
    NotWritten,
}

// An answer as document 01 writes it. A number that the table does not name is 0.
#[derive(Clone, Copy, PartialEq, Eq)]
pub struct Numbers {
    pub code: u32,
    pub event: u32,
    pub partner: u32,
    pub peak: u32,
}

impl Answer {
    // No `From`, which is no plainer: callers read `answer.numbers()`.
    pub fn numbers(self) -> Numbers
        ensures { result ≡ numbers_of self }
    {
        match self {
            Answer::NoVerdict => Numbers::new(0, 0, 0, 0),
            Answer::Accepted { events, peak } => Numbers::new(1, events, 0, peak),
            Answer::WrongShape => Numbers::new(2, 0, 0, 0),
            Answer::TooManyEvents => Numbers::new(3, 0, 0, 0),
            Answer::WrongMemoryLength => Numbers::new(4, 0, 0, 0),
            Answer::UnknownKind { event } => Numbers::new(5, event, 0, 0),
            Answer::WrongBodyLength { event } => Numbers::new(6, event, 0, 0),
            Answer::FieldNotAllowed { event } => Numbers::new(7, event, 0, 0),
            Answer::Misaligned { event } => Numbers::new(8, event, 0, 0),
            Answer::OutOfRange { event } => Numbers::new(9, event, 0, 0),
            Answer::Clash { event, partner } => Numbers::new(10, event, partner, 0),
            Answer::NoRoom { event } => Numbers::new(11, event, 0, 0),
            Answer::NotWritten => Numbers::new(12, 0, 0, 0),
        }
    }
}

impl Numbers {
    fn new(code: u32, event: u32, partner: u32, peak: u32) -> Numbers
        ensures { result ≡ four code event partner peak }
    {
        Numbers {
            code,
            event,
            partner,
            peak,
        }
    }

    // The case of this code, with those of the numbers that it holds; no verdict for a code past the table. No `From`: that
    // would be every crate's, and outside an answer comes from the judge or off a sheet.
    pub(crate) fn answer(self) -> Answer
        ensures { result ≡ case_of self }
    {
        let Numbers {
            code,
            event,
            partner,
            peak,
        } = self;
        match code {
            1 => Answer::Accepted {
                events: event,
                peak,
            },
            2 => Answer::WrongShape,
            3 => Answer::TooManyEvents,
            4 => Answer::WrongMemoryLength,
            5 => Answer::UnknownKind { event },
            6 => Answer::WrongBodyLength { event },
            7 => Answer::FieldNotAllowed { event },
            8 => Answer::Misaligned { event },
            9 => Answer::OutOfRange { event },
            10 => Answer::Clash { event, partner },
            11 => Answer::NoRoom { event },
            12 => Answer::NotWritten,
            _ => Answer::NoVerdict,
        }
    }
}
