// Folding a run list: neighbours whose images follow on become one run, so that the list has as few runs as its
// permutation can have.
//
// The definitions that the contracts cite are in specs/.

#![tactic(auto)]

ghost use Rattle.std.specs.Prelude.{◌≡◌, [], ◌∷◌, ◌≤◌, ◌<◌, length};
ghost use Rattle.outcomes.specs.Outcome.{Long};
ghost use Rattle.outcomes.specs.Refusal.{says};
ghost use Rattle.runs.specs.Runs.{runs_in, count_of};
ghost use Rattle.runs.specs.Check.{max_runs, check_of};
ghost use Rattle.runs.specs.Written.{WritesList, SameTables, if_room};
ghost use Rattle.folds.specs.Fold.{begins, folded};
ghost use Rattle.folds.specs.Lent.{Folds};
ghost use Rattle.folds.specs.Parts.{Foldable, FoldWritten};

use outcomes::Refusal;
use runs::{RunList, RunListMut};

// Whether run x begins a run of the fold. The list need not be legal, so an image and a length may come to more than 32
// bits hold.
fn is_head(list: RunList<'_>, x: usize) -> bool
    requires { (x < length list.starts.now) × Foldable (runs_in list) }
    ensures { result ≡ begins (runs_in list.entry) x }
{
    if x == 0 {
        return true;
    }
    let follows = u64::from(list.images[x - 1]) + u64::from(list.starts[x] - list.starts[x - 1]);
    u64::from(list.images[x]) != follows
}

// Writes the folded list to the first entries of two tables, and leaves the others. Answers how many runs it has. Public
// for our own crates, which hold lists whose starts they know to rise.
pub fn write_folded(list: RunList<'_>, to: &mut RunListMut<'_>) -> usize
    requires { Foldable (runs_in list)
        × Long (length list.starts.now) (to.old.starts.now ∷ to.old.images.now ∷ []) }
    ensures written { FoldWritten (runs_in list.entry)
        to.old.starts.now to.old.images.now to.new.starts.now to.new.images.now result }
    ensures lent { SameTables to.old to.new }
{
    let starts = &mut *to.starts;
    let images = &mut *to.images;
    let mut m = 0;
    for x in 0..list.starts.len() {
        if is_head(list, x) {
            starts[m] = list.starts[x];
            images[m] = list.images[x];
            m += 1;
        }
    }
    m
}

// Test 8 of an accepted list, and its fold where the tables have room.
fn fold_accepted(list: RunList<'_>, to: &mut RunListMut<'_>) -> Result<u32, Refusal>
    requires { Foldable (runs_in list) × (length list.starts.now ≤ max_runs) }
    ensures written { WritesList says count_of
        (if_room (count_of (runs_in list.entry)) (folded (runs_in list.entry)) to.old.starts.now to.old.images.now)
        to.old.starts.now to.old.images.now to.new.starts.now to.new.images.now result }
    ensures lent { SameTables to.old to.new }
{
    let k = list.starts.len();
    if to.starts.len() < k || to.images.len() < k {
        return Err(Refusal::ShortTable(k as u32));
    }
    let count = write_folded(list, to);
    Ok(count as u32)
}

// Tests 1 to 6, as `lists::check` has them. Few runs are checked here: of sixteen runs the call of `lists::check` alone would take up to
// a tenth of the time (docs/DECISIONS.md, "Few runs get small tables").
fn check(list: RunList<'_>) -> Result<(), Refusal>
    ensures { says result ≡ check_of list.entry.n (runs_in list.entry) }
{
    if list.starts.len() <= runs::FEW_RUNS {
        let mut order = [0; runs::FEW_RUNS];
        let mut spare = [0; runs::FEW_RUNS];
        return runs::check_order(list, runs::MOST_RUNS, &mut order, &mut spare);
    }
    lists::check(list)
}

// Writes the folded list to the first entries of two tables of at least k entries, and leaves the others. Answers how many runs it
// has. Tests 1 to 6 and 8; a refused call changes nothing.
pub fn fold(list: RunList<'_>, to: &mut RunListMut<'_>) -> Result<u32, Refusal>
    ensures folded { Folds list.entry.n (runs_in list.entry)
        to.old.starts.now to.old.images.now to.new.starts.now to.new.images.now result }
    ensures lent { SameTables to.old to.new }
{
    check(list)?;
    fold_accepted(list, to)
}
