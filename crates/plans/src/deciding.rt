// Tests 1 to 8. The list is sorted once, in its check.
ghost use Rattle.std.specs.Prelude.{◌≡◌, ◌≤◌};
ghost use Rattle.outcomes.specs.Refusal.{says};
ghost use Rattle.runs.specs.Check.{max_runs};
ghost use Rattle.runs.specs.Parts.{HoldsRuns};
ghost use Rattle.runs.specs.Runs.{runs_in};
ghost use Rattle.plans.specs.Working.{working_size};
ghost use Rattle.plans.specs.Parts.{sized_of, Decided};

use outcomes::Refusal;
use runs::RunList;

// B, the whole part of dk/(d - 1).
pub(crate) fn bound_of(d: u32, k: usize) -> usize
    requires { (2 ≤ d) × (d ≤ 64) × (k ≤ max_runs) }
    ensures { (result ≡ working_size d k) × (result ≤ 1048576) }
{
    let degree = d as usize;
    degree * k / (degree - 1)
}

// Tests 7 and 8 for a list of `k` runs.
#[tactic(auto, unfolding(crate::specs::Parts::sized_of, outcomes::specs::Outcome::judge))]
fn decide(d: u32, k: usize, room: usize) -> Result<(), Refusal>
    requires { k ≤ max_runs }
    ensures { says result ≡ sized_of d k room }
{
    if !outcomes::is_degree(d) {
        return Err(Refusal::Degree(d));
    }
    let b = bound_of(d, k);
    if room < b {
        return Err(Refusal::ShortTable(b as u32));
    }
    Ok(())
}

// Tests 1 to 8, for a working table of `room` entries. `order` is room for the order of the runs by image, and holds it if
// they are passed; `spare` is room to work in.
pub(crate) fn decide_list(
    list: RunList<'_>,
    d: u32,
    room: usize,
    order: &mut [u32],
    spare: &mut [u32],
) -> Result<(), Refusal>
    requires { HoldsRuns max_runs list.starts.now order.old × HoldsRuns max_runs list.starts.now spare.old }
    ensures { Decided list.entry.n (runs_in list.entry) d room order.new result }
{
    runs::check_order(list, runs::MOST_RUNS, order, spare)?;
    decide(d, list.starts.len(), room)
}
