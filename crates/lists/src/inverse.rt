// The inverse list of a checked list: its runs in rising order of image, start and image swapped.
ghost use Rattle.std.specs.Prelude.{◌≤◌, length};
ghost use Rattle.runs.specs.Runs.{runs_in, count_of};
ghost use Rattle.runs.specs.Check.{max_runs};
ghost use Rattle.runs.specs.Parts.{Ordered};
ghost use Rattle.runs.specs.Written.{WritesList, SameTables, if_room};
ghost use Rattle.outcomes.specs.Refusal.{says};
ghost use Rattle.lists.specs.Inverse.{inverse_runs};

use outcomes::Refusal;
use runs::{RunList, RunListMut};

// Test 8, and the inverse list where the tables have room.
pub(crate) fn write(
    list: RunList<'_>,
    order: &[u32],
    to: &mut RunListMut<'_>,
) -> Result<(), Refusal>
    requires { Ordered (runs_in list) order.now × (length list.starts.now ≤ max_runs) }
    ensures listed { WritesList says (λ q. tt)
        (if_room (count_of (runs_in list.entry)) (inverse_runs (runs_in list.entry)) to.old.starts.now to.old.images.now)
        to.old.starts.now to.old.images.now to.new.starts.now to.new.images.now result }
    ensures lent { SameTables to.old to.new }
{
    let k = list.starts.len();
    if to.starts.len() < k || to.images.len() < k {
        return Err(Refusal::ShortTable(k as u32));
    }
    sorting::gather(list.images, order, to.starts);
    sorting::gather(list.starts, order, to.images);
    Ok(())
}
