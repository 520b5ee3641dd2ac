// Walks through move tables with any numbers in them: find, move and repeated move.
//
// Each operation's contract is one equation with its definition in specs/, for every input. On the tables of a legal
// list these are the list's function and its powers (proofs/LegalTables). What questions share with them stands last, and asks for
// what the tests before it show: find's test 11, the walk that its definition speaks of, and the step of a move.

#![tactic(auto)]

mod locating;
mod reaching;
mod walk;

ghost use Rattle.std.specs.Prelude.{◌≡◌, ◌+◌, ◌≤◌, ◌<◌, length};
ghost use Rattle.tables.specs.Tables.{links_in, tables_in, max_intervals};
ghost use Rattle.walks.specs.Move.{passed, unfindable, step_of, Finds, MovesOnce, MovesOften};
ghost use Rattle.walks.specs.Parts.{Movable};

use outcomes::Refusal;
use tables::MoveTable;

// Where a move or a repeated move ends: the place, the interval that has it and the place's distance from the interval's
// start; and how many interval starts it read, which is how many it compared with the places that it reached.
#[derive(Clone, Copy)]
pub struct Step {
    pub place: u32,
    pub interval: u32,
    pub distance: u32,
    pub count: u64,
}

// The interval that a walk from the first one reaches for place i. Where all lengths are right the starts rise, so that a search
// leads there too.
pub fn find(table: MoveTable<'_>, i: u32) -> Result<u32, Refusal>
    ensures { Finds table.entry.n (tables_in table.entry) i result }
{
    if table.is_misshapen() {
        return Err(Refusal::TableShape);
    }
    if let Some(x) = table.first_wrong_length() {
        return Err(Refusal::BrokenInterval(x as u32));
    }
    if is_unfindable(table, i) {
        return Err(Refusal::PlaceRange(i));
    }
    Ok((searching::count_below(table.starts, i + 1) - 1) as u32)
}

// One move from place i of interval x.
pub fn move_query(table: MoveTable<'_>, x: u32, i: u32) -> Result<Step, Refusal>
    ensures { MovesOnce table.entry.n (tables_in table.entry) x i result }
{
    locating::locate(table, x, i)?;
    walk::advance(table, x, i)
}

// m moves from place i of interval x, with the sum of the counts.
pub fn repeated_moves(table: MoveTable<'_>, x: u32, i: u32, m: u32) -> Result<Step, Refusal>
    ensures { MovesOften table.entry.n (tables_in table.entry) m x i result }
{
    locating::locate(table, x, i)?;
    walk::moves_from(table, x, i, m)
}

// Test 11 of find, for our own crates.
#[tactic(auto, unfolding(crate::specs::Move::unfindable))]
pub fn is_unfindable(table: MoveTable<'_>, i: u32) -> bool
    requires { 0 < length table.starts.now }
    ensures { result ≡ unfindable table.entry.n table.entry.starts.now i }
{
    table.n <= i || i < table.starts[0]
}

// The interval that a walk from interval x for place i reaches, for our own crates.
pub fn reach_from(starts: &[u32], x: u32, i: u32) -> u32
    requires { (x < length starts.now) × (length starts.now ≤ max_intervals) }
    ensures { result ≡ x + passed starts.now x i }
{
    reaching::walk_from(starts, x, i).interval
}

// The step from place i of interval x where no test refuses it, for our own crates.
pub fn step_from(table: MoveTable<'_>, x: u32, i: u32) -> Step
    requires { Movable (links_in table) x i }
    ensures { result ≡ step_of (links_in table.entry) x i }
{
    let at = x as usize;
    let j = table.images[at] + (i - table.starts[at]);
    let walked = reaching::walk_from(table.starts, table.holders[at], j);
    locating::stand(table.starts, walked.interval, j, walked.count)
}
