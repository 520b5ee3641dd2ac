// Balancing into lent tables: the same permutation with more starts, so that a move through the table reads at most
// 2d of them.
//
// What balancing is stands in the crate cuts (specs/Balance), and where to cut is planned by the crate plans; the tests, and what
// stands in each lent table at exit, in specs/Lent. All is decided before one of the four tables is written.

#![tactic(auto)]

mod fill;

ghost use Rattle.std.specs.Prelude.{◌≡◌, ◌+◌, length};
ghost use Rattle.outcomes.specs.Outcome.{some_below};
ghost use Rattle.runs.specs.Runs.{runs_in};
ghost use Rattle.tables.specs.Tables.{tables_to, tables_of, SameColumns};
ghost use Rattle.cuts.specs.Cuts.{with_cuts};
ghost use Rattle.balance.specs.Lent.{lent_in, Balances};
ghost use Rattle.balance.specs.Parts.{Fillable, Fills};

use outcomes::Refusal;
use runs::RunList;
use tables::MoveTableMut;

// Whether one of the sizes of the four tables is below `size`.
fn is_any_short(size: usize, sizes: [usize; 4]) -> bool
    ensures { result ≡ some_below size sizes }
{
    sizes.iter().any(|s| *s < size)
}

// Test 8 for the four tables, and the tables of the list after the cuts. Answers how many intervals they have.
fn fill_tables(list: RunList<'_>, cuts: &[u32], to: &mut MoveTableMut<'_>) -> Result<u32, Refusal>
    requires { Fillable list.n (runs_in list) cuts.now }
    ensures filled { Fills (length list.entry.starts.now + length cuts.now)
        (tables_of list.entry.n (with_cuts list.entry.n (runs_in list.entry) cuts.now))
        (tables_to to.old) (tables_to to.new) result }
    ensures lent { SameColumns to.old to.new }
{
    let size = list.starts.len() + cuts.len();
    let sizes = [
        to.starts.len(),
        to.images.len(),
        to.holders.len(),
        to.lengths.len(),
    ];
    if is_any_short(size, sizes) {
        return Err(Refusal::ShortTable(size as u32));
    }
    let starts = &mut *to.starts;
    let images = &mut *to.images;
    let holders = &mut *to.holders;
    let lengths = &mut *to.lengths;
    fill::write_tables(list, cuts, starts, images, holders, lengths);
    Ok(size as u32)
}

// Balances the list at the degree `d`: its tables come to stand in the first K entries of the four lent ones, and the
// first B entries of `working` to be 0. Answers K, how many intervals the balanced list has. Tests 1 to 7, 8 for the working table
// with B, and 8 for the others with K; the last one leaves the working table as success does, and nothing else is changed by a
// refusal.
pub fn balance(
    list: RunList<'_>,
    d: u32,
    to: &mut MoveTableMut<'_>,
    working: &mut [u32],
) -> Result<u32, Refusal>
    ensures balanced { Balances list.entry.n (runs_in list.entry) d
        (lent_in to.old working.old) (lent_in to.new working.new) result }
    ensures lent { SameColumns to.old to.new }
{
    let plan = plans::plan(list, plans::NO_LIMIT, d, working)?;
    let cuts = &working[..plan.cuts];
    let answer = fill_tables(list, cuts, to);
    plans::clear(d, list.starts.len(), working);
    answer
}
