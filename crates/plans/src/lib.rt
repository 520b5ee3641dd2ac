// Plans: all that is decided about balancing before a table is written. The list is checked and sorted once, and cut at the
// least degree that leaves few enough intervals; the cuts come to stand in the working table, for the caller to read and clear.
//
// Balancing and the forecast ask from their own degree on and set no limit, so that it is the degree answered; the search for a
// degree asks from 2 on. Which tests there are and what the working table holds afterwards stands in specs/Working, the degree in
// specs/Fitting, and what `plan` promises in specs/Plan.

#![tactic(auto)]

mod deciding;
mod rooms;
mod seeking;

ghost use Rattle.std.specs.Prelude.{◌≡◌, ◌≤◌, length, replicate};
ghost use Rattle.outcomes.specs.Outcome.{over};
ghost use Rattle.runs.specs.Check.{max_runs};
ghost use Rattle.runs.specs.Runs.{runs_in};
ghost use Rattle.plans.specs.Working.{working_size};
ghost use Rattle.plans.specs.Plan.{Plans};

use outcomes::Refusal;
use runs::RunList;

// More entries than any list has intervals.
// It is a number and no Option, so that one plan does for three calls: balancing, the forecast and the search for a degree.
pub const NO_LIMIT: u32 = u32::MAX;

// A degree, and how many cuts stand in the working table for it.
#[derive(Clone, Copy)]
pub struct CutsAt {
    pub degree: u32,
    pub cuts: usize,
}

// Sets the first B entries of the working table to 0, where B is that of `k` runs at degree `d`. Public for our own crates, for a
// list that has been planned.
pub fn clear(d: u32, k: usize, working: &mut [u32])
    requires { (2 ≤ d) × (d ≤ 64) × (k ≤ max_runs) × (working_size d k ≤ length working.old) }
    ensures { working.new ≡ over (replicate (working_size d k) 0) working.old }
{
    order::clear(working, deciding::bound_of(d, k));
}

// Tests 1 to 6; 7 and 8 at the degree `low`; 19 where no degree from there to 64 leaves at most `entries` intervals. The cuts
// at the least such degree come to stand in `working`, and between them and entry k any numbers; after 19 its first B entries are
// 0, and after the others it is as it was. Public for our own crates.
pub fn plan(
    list: RunList<'_>,
    entries: u32,
    low: u32,
    working: &mut [u32],
) -> Result<CutsAt, Refusal>
    ensures { Plans list.entry.n (runs_in list.entry) entries low working.old working.new result }
{
    let k = list.starts.len();
    if k <= runs::FEW_RUNS {
        rooms::plan_in::<{ runs::FEW_RUNS }>(list, entries, low, working)
    } else if k <= runs::MORE_RUNS {
        rooms::plan_in::<{ runs::MORE_RUNS }>(list, entries, low, working)
    } else if k <= runs::SOME_RUNS {
        rooms::plan_in::<{ runs::SOME_RUNS }>(list, entries, low, working)
    } else if k <= runs::MANY_RUNS {
        rooms::plan_in::<{ runs::MANY_RUNS }>(list, entries, low, working)
    } else {
        rooms::plan_in::<{ runs::MAX_RUNS }>(list, entries, low, working)
    }
}
