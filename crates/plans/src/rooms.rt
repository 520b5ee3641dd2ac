// A plan in room of its own, as large as the list needs.
ghost use Rattle.std.specs.Prelude.{◌≤◌, length};
ghost use Rattle.runs.specs.Runs.{runs_in};
ghost use Rattle.runs.specs.Check.{max_runs};
ghost use Rattle.plans.specs.Plan.{Plans};

use super::seeking::Search;
use super::{CutsAt, deciding};
use outcomes::Refusal;
use runs::RunList;

// The tests, and the search for a degree, with two tables of `N` entries as room to work in.
//
// A call touches each page of its frame, so a short list is to be planned in a frame without large tables. The compiler would put
// this into its caller, so that all sizes come to stand in one frame (docs/DECISIONS.md, "Few runs get small tables").
#[inline(never)]
pub(crate) fn plan_in<const N: usize>(
    list: RunList<'_>,
    entries: u32,
    low: u32,
    working: &mut [u32],
) -> Result<CutsAt, Refusal>
    requires { (63 ≤ N) × (N ≤ max_runs)
        × (length list.starts.now ≤ max_runs → length list.starts.now ≤ N) }
    ensures { Plans list.entry.n (runs_in list.entry) entries low working.old working.new result }
{
    let mut order = [0; N];
    let mut spare = [0; N];
    deciding::decide_list(list, low, working.len(), &mut order, &mut spare)?;
    let search = Search {
        list,
        order: &order,
        entries,
        low,
    };
    search.seek(&mut spare, working)
}
