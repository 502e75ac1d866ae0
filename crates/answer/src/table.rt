// Document 01's table: which numbers a code names, and their bounds.
ghost use Rattle.std.specs.Prelude.{◌≡◌};
ghost use Rattle.answer.specs.Table.{named_by, fit};

use crate::{EVENT_LIMIT, Numbers};

// The numbers that a code names besides itself.
#[derive(Clone, Copy)]
pub(crate) enum Named {
    // No sheet has the code. A case and no Option: the definition `rows` has it for code 0.
    Unread,
    Nothing,
    // Count is the number of the list's events, an event one of them.
    Count,
    CountAndPeak,
    Event,
    EventAndPartner,
}

fn named_by(code: u32) -> Named
    ensures { result ≡ named_by code }
{
    match code {
        1 => Named::CountAndPeak,
        2..=4 => Named::Nothing,
        5..=9 => Named::Event,
        10 => Named::EventAndPartner,
        11 => Named::Count,
        _ => Named::Unread,
    }
}

impl Numbers {
    // Whether a sheet can hold these numbers.
    #[tactic(auto, unfolding(crate::specs::Table::fit, crate::specs::Table::fit_named))]
    pub fn fit(self) -> bool
        ensures { result ≡ fit self }
    {
        let Numbers {
            code,
            event,
            partner,
            peak,
        } = self;
        match named_by(code) {
            Named::Unread => false,
            Named::Nothing => (event == 0) & (partner == 0) & (peak == 0),
            Named::Count => (event <= EVENT_LIMIT) & (partner == 0) & (peak == 0),
            Named::CountAndPeak => (event <= EVENT_LIMIT) & (partner == 0) & (peak <= event),
            Named::Event => (event < EVENT_LIMIT) & (partner == 0) & (peak == 0),
            Named::EventAndPartner => (event < EVENT_LIMIT) & (partner < event) & (peak == 0),
        }
    }
}
