// The events of a file, one after the other.
ghost use Rattle.std.specs.Prelude.{◌≡◌, ◌+◌, ◌≤◌, length};
ghost use Rattle.answer.specs.Codes.{IsAccepted};
ghost use Rattle.rules.specs.Answers.{answer_of};
ghost use Rattle.moves.specs.Acting.{memories, held, lengths, IsSameLoan};
ghost use Rattle.run.specs.Running.{lent, load_size_of, load_bytes};
ghost use Rattle.run.specs.Acting.{FaultlessItem, acted_item, acted_all, left};

use decoder::Item;
use moves::Lent;
use trace::File;

// The loads' total bytes.
pub(crate) fn load_bytes(file: &File<'_>) -> usize
    ensures { result ≡ load_bytes file.now.items }
{
    file.items().map(|item| load_size_of(item) as usize).sum()
}

fn load_size_of(item: Item) -> u32
    ensures { result ≡ load_size_of item }
{
    let Ok(event) = item else {
        return 0;
    };
    moves::load_size(event)
}

// All events of an accepted list act, in order. The loads fit. The three slices come as `run` is lent them.
pub(crate) fn act_all(file: &File<'_>, global: &mut [u8], shared: &mut [u8], loads: &mut [u8])
    requires accepted { IsAccepted (answer_of (record { global = length global.now; shared = length shared.old }) file.now.items) }
    requires loads_fit { load_bytes file.now.items ≤ length loads.old }
    ensures { lent global.new shared.new loads.new ≡ left (acted_all file.now.items (memories global.old shared.old loads.old 0)) }
{
    let mut lent = Lent::new(global, shared, loads);
    for item in file.items() {
        act_item(item, &mut lent);
    }
}

// An item that does not decode, which no accepted list has, does nothing.
fn act_item(item: Item, lent: &mut Lent<'_, '_, '_>)
    requires faultless_item { FaultlessItem (lengths lent.old) item }
    requires item_in_bounds { lent.old.filled + load_size_of item ≤ length lent.old.loads.now }
    ensures same_loan { IsSameLoan lent.old lent.new }
    ensures acted { held lent.new ≡ acted_item item (held lent.old) }
{
    let Ok(event) = item else {
        return;
    };
    lent.act(event);
}
