// How large will it be? Before tables are lent: how many intervals a list has once it is balanced at a degree, and the least
// degree at which they are few enough.
//
// Both plan as balancing does (crate plans) and clear the working table instead of reading it. Their tests and results stand in
// specs/Sizing and specs/Seeking.

#![tactic(auto)]

ghost use Rattle.runs.specs.Runs.{runs_in};
ghost use Rattle.forecasts.specs.Sizing.{Forecasts};
ghost use Rattle.forecasts.specs.Seeking.{Seeks};

use outcomes::Refusal;
use runs::RunList;

// How many intervals the balanced list has, and how many cuts make them.
#[derive(Clone, Copy)]
pub struct BalancedSize {
    pub intervals: u32,
    pub cuts: u32,
}

// A degree, and how many intervals the list balanced at it has.
#[derive(Clone, Copy)]
pub struct LeastDegree {
    pub degree: u32,
    pub intervals: u32,
}

// How large the list will be at the degree `d`. Tests 1 to 8. The first B entries of `working` come to be 0; a refused call
// changes nothing.
pub fn forecast(list: RunList<'_>, d: u32, working: &mut [u32]) -> Result<BalancedSize, Refusal>
    ensures { Forecasts list.entry.n (runs_in list.entry) d working.old working.new result }
{
    let plan = plans::plan(list, plans::NO_LIMIT, d, working)?;
    plans::clear(d, list.starts.len(), working);
    Ok(BalancedSize {
        intervals: (list.starts.len() + plan.cuts) as u32,
        cuts: plan.cuts as u32,
    })
}

// The least degree at which the balanced list has at most `entries` intervals. Tests 1 to 6, 8 at degree 2, and 19. The first
// B entries of `working` come to be 0, B being that of degree 2, after 19 too; another refusal changes nothing.
pub fn least_degree(
    list: RunList<'_>,
    entries: u32,
    working: &mut [u32],
) -> Result<LeastDegree, Refusal>
    ensures { Seeks list.entry.n (runs_in list.entry) entries working.old working.new result }
{
    let plan = plans::plan(list, entries, 2, working)?;
    plans::clear(2, list.starts.len(), working);
    Ok(LeastDegree {
        degree: plan.degree,
        intervals: (list.starts.len() + plan.cuts) as u32,
    })
}
