// The operations on a run list: its check, its inverse list, and the shift of a run. Each works in room of its own, as large
// as the list needs (docs/DECISIONS.md, "Few runs get small tables").

#![tactic(auto)]

mod inverse;

ghost use Rattle.std.specs.Prelude.{◌≡◌, ◌≤◌, length};
ghost use Rattle.outcomes.specs.Refusal.{says};
ghost use Rattle.runs.specs.Runs.{runs_in, shift_from};
ghost use Rattle.runs.specs.Check.{max_runs, check_of};
ghost use Rattle.runs.specs.Written.{SameTables};
ghost use Rattle.lists.specs.Inverse.{InverseListed};

use outcomes::Refusal;
use runs::{RunList, RunListMut};

// Tests 1 to 6, in tables of N entries, with a frame of its own. A call touches each page of its frame, so a check of few runs should
// have no large tables in its caller's, and that of many no small ones between their frame and its caller's.
#[inline(never)]
fn check_apart<const N: usize>(list: RunList<'_>) -> Result<(), Refusal>
    requires { (N ≤ max_runs) × (length list.starts.now ≤ max_runs → length list.starts.now ≤ N) }
    ensures { says result ≡ check_of list.entry.n (runs_in list.entry) }
{
    let mut order = [0; N];
    let mut spare = [0; N];
    runs::check_order(list, runs::MOST_RUNS, &mut order, &mut spare)
}

// Tests 1 to 6 and 8 and the inverse list, in tables of N entries.
fn invert_in<const N: usize>(list: RunList<'_>, to: &mut RunListMut<'_>) -> Result<(), Refusal>
    requires { (N ≤ max_runs) × (length list.starts.now ≤ max_runs → length list.starts.now ≤ N) }
    ensures listed { InverseListed list.entry.n (runs_in list.entry)
        to.old.starts.now to.old.images.now to.new.starts.now to.new.images.now result }
    ensures lent { SameTables to.old to.new }
{
    let mut order = [0; N];
    let mut spare = [0; N];
    runs::check_order(list, runs::MOST_RUNS, &mut order, &mut spare)?;
    inverse::write(list, &order, to)
}

// The same with a frame of its own.
#[inline(never)]
fn invert_apart<const N: usize>(list: RunList<'_>, to: &mut RunListMut<'_>) -> Result<(), Refusal>
    requires { (N ≤ max_runs) × (length list.starts.now ≤ max_runs → length list.starts.now ≤ N) }
    ensures listed { InverseListed list.entry.n (runs_in list.entry)
        to.old.starts.now to.old.images.now to.new.starts.now to.new.images.now result }
    ensures lent { SameTables to.old to.new }
{
    invert_in::<N>(list, to)
}

// Whether the list is legal and has at most 16,384 runs. Tests 1 to 6; O(k log k) for every input.
pub fn check(list: RunList<'_>) -> Result<(), Refusal>
    ensures { says result ≡ check_of list.entry.n (runs_in list.entry) }
{
    let k = list.starts.len();
    if k <= runs::FEW_RUNS {
        check_apart::<{ runs::FEW_RUNS }>(list)
    } else if k <= runs::MORE_RUNS {
        check_apart::<{ runs::MORE_RUNS }>(list)
    } else if k <= runs::SOME_RUNS {
        check_apart::<{ runs::SOME_RUNS }>(list)
    } else if k <= runs::MANY_RUNS {
        check_apart::<{ runs::MANY_RUNS }>(list)
    } else {
        check_apart::<{ runs::MAX_RUNS }>(list)
    }
}

// Writes the inverse list to the first k entries of two tables, and leaves the others. Tests 1 to 6 and 8.
pub fn inverse_list(list: RunList<'_>, to: &mut RunListMut<'_>) -> Result<(), Refusal>
    ensures listed { InverseListed list.entry.n (runs_in list.entry)
        to.old.starts.now to.old.images.now to.new.starts.now to.new.images.now result }
    ensures lent { SameTables to.old to.new }
{
    let k = list.starts.len();
    if k <= runs::FEW_RUNS {
        invert_in::<{ runs::FEW_RUNS }>(list, to)
    } else if k <= runs::MORE_RUNS {
        invert_in::<{ runs::MORE_RUNS }>(list, to)
    } else if k <= runs::SOME_RUNS {
        invert_apart::<{ runs::SOME_RUNS }>(list, to)
    } else if k <= runs::MANY_RUNS {
        invert_apart::<{ runs::MANY_RUNS }>(list, to)
    } else {
        invert_apart::<{ runs::MAX_RUNS }>(list, to)
    }
}

// The shift of a run, its image minus its start.
pub fn shift(start: u32, image: u32) -> i64
    ensures { result ≡ shift_from start image }
{
    i64::from(image) - i64::from(start)
}
