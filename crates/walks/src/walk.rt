// A move from a place that lies in its interval, and many of them.
ghost use Rattle.std.specs.Prelude.{◌≡◌};
ghost use Rattle.outcomes.specs.Refusal.{says};
ghost use Rattle.tables.specs.Tables.{links_in, tables_in};
ghost use Rattle.walks.specs.Move.{moves_of};
ghost use Rattle.tables.specs.Parts.{Located, Stands};
ghost use Rattle.walks.specs.Parts.{advance_of, leave_of, Starting};

use super::{Step, locating};
use outcomes::Refusal;
use tables::MoveTable;

// Test 12 but for the length, and the step, from a place that lies in interval x.
pub(crate) fn advance(table: MoveTable<'_>, x: u32, i: u32) -> Result<Step, Refusal>
    requires { Located table.n (links_in table) x i }
    ensures { says result ≡ advance_of table.entry.n (links_in table.entry) x i }
{
    if table.is_broken(x, i) {
        return Err(Refusal::BrokenInterval(x));
    }
    Ok(super::step_from(table, x, i))
}

// Test 12 and the step, from a place that lies in interval x by the starts.
fn leave(table: MoveTable<'_>, x: u32, i: u32) -> Result<Step, Refusal>
    requires { Stands table.n (tables_in table) x i }
    ensures { says result ≡ leave_of table.entry.n (tables_in table.entry) x i }
{
    if table.is_wrong_length(x as usize) {
        return Err(Refusal::BrokenInterval(x));
    }
    advance(table, x, i)
}

// m moves from a place that lies in interval x, with the sum of the counts. After a move the place lies in the interval
// reached, so that only 12 is left to test. Only the last move's distance is asked for, so that the loop keeps none.
pub(crate) fn moves_from(table: MoveTable<'_>, x: u32, i: u32, m: u32) -> Result<Step, Refusal>
    requires { Starting table.n (tables_in table) x i }
    ensures { says result ≡ moves_of table.entry.n (tables_in table.entry) m x i }
{
    let mut place = i;
    let mut interval = x;
    let mut count: u64 = 0;
    for _ in 0..m {
        let next = leave(table, interval, place)?;
        place = next.place;
        interval = next.interval;
        count += next.count;
    }
    Ok(locating::stand(table.starts, interval, place, count))
}
