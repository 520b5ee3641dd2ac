// The tests that a move begins with, and the step that stands at a place.
ghost use Rattle.std.specs.Prelude.{◌≡◌, ◌≤◌, ◌<◌, length, get_or};
ghost use Rattle.outcomes.specs.Refusal.{says};
ghost use Rattle.tables.specs.Tables.{outside, tables_in};
ghost use Rattle.walks.specs.Move.{stand_at};
ghost use Rattle.walks.specs.Parts.{locate_of};

use super::Step;
use outcomes::Refusal;
use tables::MoveTable;

// Standing at place i of interval x, after walks of this count.
pub(crate) fn stand(starts: &[u32], x: u32, i: u32, count: u64) -> Step
    requires { (x < length starts.now) × (get_or starts.now x 0 ≤ i) }
    ensures { result ≡ stand_at starts.now x i count }
{
    Step {
        place: i,
        interval: x,
        distance: i - starts[x as usize],
        count,
    }
}

// Test 11, of a place that is handed in with interval x.
#[tactic(auto, unfolding(tables::specs::Tables::outside))]
fn is_outside(table: MoveTable<'_>, x: usize, i: u32) -> bool
    requires { (x < length table.starts.now) × (x < length table.lengths.now) }
    ensures { result ≡ outside table.entry.n (tables_in table.entry) x i }
{
    table.n <= i || i < table.starts[x] || table.lengths[x] <= i - table.starts[x]
}

// Tests 9, 10, 12 of the length of x, and 11, and no move.
#[tactic(auto, unfolding(outcomes::specs::Outcome::judge))]
pub(crate) fn locate(table: MoveTable<'_>, x: u32, i: u32) -> Result<(), Refusal>
    ensures { says result ≡ locate_of table.entry.n (tables_in table.entry) x i }
{
    if table.is_misshapen() {
        return Err(Refusal::TableShape);
    }
    let at = x as usize;
    if table.starts.len() <= at {
        return Err(Refusal::IntervalIndex(x));
    }
    if table.is_wrong_length(at) {
        return Err(Refusal::BrokenInterval(x));
    }
    if is_outside(table, at, i) {
        return Err(Refusal::PlaceRange(i));
    }
    Ok(())
}
