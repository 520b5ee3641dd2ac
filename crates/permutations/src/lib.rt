// Every small list: the permutations of 1 to 7 places in lexicographic order, by the image of place 0, then of place 1, and so on,
// each as a list of fewest runs. `next_list` writes the list after a given one. That from the identity each permutation comes once
// is proved (specs/SmallLists).

#![tactic(auto)]

mod after;
mod values;

ghost use Rattle.std.specs.Prelude.{◌≡◌, ◌≤◌, length};
ghost use Rattle.outcomes.specs.Outcome.{done};
ghost use Rattle.outcomes.specs.Refusal.{says};
ghost use Rattle.runs.specs.Runs.{runs_in, count_of};
ghost use Rattle.runs.specs.Check.{check_of};
ghost use Rattle.runs.specs.Written.{WritesList, SameTables};
ghost use Rattle.permutations.specs.Next.{max_places, NextListed};
ghost use Rattle.permutations.specs.Parts.{Writable, NoneListed, later_of, after_of};

use outcomes::Refusal;
use runs::{RunList, RunListMut};

// The most places of a list whose next one is given, as a number and as a table's size.
const MOST_PLACES: u32 = 7;

const MAX_PLACES: usize = MOST_PLACES as usize;

// Test 18, and the list of the next values. A list of one run for each place has these values; its fold is written.
fn write_next(values: &[u32], to: &mut RunListMut<'_>) -> Result<u32, Refusal>
    requires { Writable values.now to.old.starts.now to.old.images.now }
    ensures written { WritesList says count_of (after_of values.now)
        to.old.starts.now to.old.images.now to.new.starts.now to.new.images.now result }
    ensures lent { SameTables to.old to.new }
{
    let n = values.len();
    let Some(ascent) = after::last_ascent(values) else {
        return Err(Refusal::LastPermutation);
    };
    let other = after::last_above(values, ascent);
    let changed = after::change(values, ascent, other);
    let places = [0, 1, 2, 3, 4, 5, 6];
    let list = RunList {
        n: n as u32,
        starts: &places[..n],
        images: &changed[..n],
    };
    let count = folds::write_folded(list, to);
    Ok(count as u32)
}

// Tests 8 and 18 of an accepted list of few places, and the next one.
fn next_accepted(list: RunList<'_>, to: &mut RunListMut<'_>) -> Result<u32, Refusal>
    requires { (done tt ≡ check_of list.n (runs_in list)) × (list.n ≤ max_places) }
    ensures written { WritesList says count_of
        (later_of list.entry.n (runs_in list.entry) to.old.starts.now to.old.images.now)
        to.old.starts.now to.old.images.now to.new.starts.now to.new.images.now result }
    ensures lent { SameTables to.old to.new }
{
    let size = list.n as usize;
    if to.starts.len() < size || to.images.len() < size {
        return Err(Refusal::ShortTable(list.n));
    }
    let values = values::of_places(list);
    write_next(&values[..size], to)
}

// Tests 1 to 6 of a list of few runs, in little room.
fn check_few(list: RunList<'_>) -> Result<(), Refusal>
    requires { length list.starts.now ≤ max_places }
    ensures { says result ≡ check_of list.entry.n (runs_in list.entry) }
{
    let mut order = [0; MAX_PLACES];
    let mut spare = [0; MAX_PLACES];
    runs::check_order(list, runs::MOST_RUNS, &mut order, &mut spare)
}

// The answer to a list of more than seven places or runs: its own refusal, or 17, which only one of more places can come to. The tables
// that `lists::check` needs stay out of the frame of `next_list` (docs/DECISIONS.md, "Few runs get small tables").
#[inline(never)]
fn refuse(list: RunList<'_>) -> Result<u32, Refusal>
    ensures { NoneListed list.entry.n (check_of list.entry.n (runs_in list.entry)) result }
{
    lists::check(list)?;
    Err(Refusal::TooManyPlaces(list.n))
}

// Writes the next list to the first entries of two tables of at least n entries, and leaves the others. Answers how many runs it has.
// Tests 1 to 6, 17, 8 and 18; a refused call changes nothing. More than seven runs on at most seven places: one of tests 1 to 4 refuses
// the list.
pub fn next_list(list: RunList<'_>, to: &mut RunListMut<'_>) -> Result<u32, Refusal>
    ensures listed { NextListed list.entry.n (runs_in list.entry)
        to.old.starts.now to.old.images.now to.new.starts.now to.new.images.now result }
    ensures lent { SameTables to.old to.new }
{
    if MOST_PLACES < list.n || MAX_PLACES < list.starts.len() {
        return refuse(list);
    }
    check_few(list)?;
    next_accepted(list, to)
}
