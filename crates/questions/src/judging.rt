// What is known of the records so far, one record after the other.
ghost use Rattle.std.specs.Prelude.{◌≡◌};
ghost use Rattle.tables.specs.Tables.{links_in, tables_in};
ghost use Rattle.tables.specs.Parts.{Located};
ghost use Rattle.questions.specs.Turns.{Ready, Findable, Staying, begun_of, standing_by, judged_of, settled, clear, fallen_of, gone_of, standing_at, stayed_of, outside_or, verdict_of};

use super::{Question, Unanswered, finding};
use outcomes::Refusal;
use tables::MoveTable;

// Which refusal the tables and the records so far have met. A record further on changes it only by an earlier test.
#[derive(Clone, Copy)]
pub enum Standing {
    // 9: no record can change it
    Misshapen,
    // 12, with the lowest interval whose length is wrong: no record can change it
    Mismeasured(u32),
    // 16: no record can change it
    Fallen,
    // 11, with the place of the lowest such record
    Outside(u32),
    // 12, of the interval of a record
    Broken,
    // none
    Clear,
}

// That; the interval of the last record that was found, which 12 of a record gives too; the place of the last record; and the index of the
// one whose place fell. They stand beside the standing and not in its cases, so that the interval, which each turn waits
// for, stays in a register of its own.
#[derive(Clone, Copy)]
pub struct Judging {
    pub standing: Standing,
    pub interval: u32,
    pub last: u32,
    pub fallen: usize,
}

// Before the first record.
#[tactic(auto, unfolding(crate::specs::Turns::begun_of))]
pub(crate) fn begin(table: MoveTable<'_>) -> Judging
    ensures { result ≡ begun_of table.entry.n (tables_in table.entry) }
{
    Judging {
        standing: judge_tables(table),
        interval: 0,
        last: 0,
        fallen: 0,
    }
}

// The tests that no record matters to: 9, and 12 of all lengths.
#[tactic(auto, unfolding(crate::specs::Turns::standing_by))]
fn judge_tables(table: MoveTable<'_>) -> Standing
    ensures { result ≡ standing_by table.entry.n (tables_in table.entry) }
{
    if table.is_misshapen() {
        return Standing::Misshapen;
    }
    match table.first_wrong_length() {
        Some(x) => Standing::Mismeasured(x as u32),
        None => Standing::Clear,
    }
}

// With the record at index i too.
#[tactic(auto, unfolding(crate::specs::Turns::judged_of))]
pub(crate) fn judge(table: MoveTable<'_>, s: Judging, q: Question, i: usize) -> Judging
    requires { Ready (links_in table) s }
    ensures { result ≡ judged_of table.entry.n (links_in table.entry) s q i }
{
    if q.place < s.last {
        return fall(s, q.place, i);
    }
    if is_clear(s.standing) {
        return go_on(table, s, q.place);
    }
    stay(table, s, q.place)
}

// Where the place of the record at index i is below the last one: test 16, for the first such record.
#[tactic(auto, unfolding(crate::specs::Turns::fallen_of))]
fn fall(s: Judging, place: u32, i: usize) -> Judging
    ensures { result ≡ fallen_of s place i }
{
    if is_settled(s.standing) {
        return Judging { last: place, ..s };
    }
    Judging {
        standing: Standing::Fallen,
        last: place,
        fallen: i,
        ..s
    }
}

// Whether no record can change it, 16 least of all: 16 goes before 11 and 12 of a record, which it can change.
fn is_settled(standing: Standing) -> bool
    ensures { result ≡ settled standing }
{
    matches!(
        standing,
        Standing::Misshapen | Standing::Mismeasured(_) | Standing::Fallen
    )
}

// Whether no refusal was met.
fn is_clear(standing: Standing) -> bool
    ensures { result ≡ clear standing }
{
    matches!(standing, Standing::Clear)
}

// Where it is not below, and no record before was refused: test 11, the interval that has the place, and test 12 there.
#[tactic(auto, unfolding(crate::specs::Turns::gone_of))]
fn go_on(table: MoveTable<'_>, s: Judging, place: u32) -> Judging
    requires { Findable (links_in table) s.interval place }
    ensures { result ≡ gone_of table.entry.n (links_in table.entry) s place }
{
    if walks::is_unfindable(table, place) {
        return Judging {
            standing: Standing::Outside(place),
            last: place,
            ..s
        };
    }
    let x = finding::find_near(table.starts, s.interval, place);
    Judging {
        standing: stand(table, x, place),
        interval: x,
        last: place,
        ..s
    }
}

// Test 12 of a place that lies in interval x.
#[tactic(auto, unfolding(crate::specs::Turns::standing_at))]
fn stand(table: MoveTable<'_>, x: u32, place: u32) -> Standing
    requires { Located table.n (links_in table) x place }
    ensures { result ≡ standing_at table.entry.n (links_in table.entry) x place }
{
    if table.is_broken(x, place) {
        return Standing::Broken;
    }
    Standing::Clear
}

// Where it is not below, and the tables or a record before were refused: test 11 goes before 12 of a record.
#[tactic(auto, unfolding(crate::specs::Turns::stayed_of))]
fn stay(table: MoveTable<'_>, s: Judging, place: u32) -> Judging
    requires { Staying table.starts.now s.standing }
    ensures { result ≡ stayed_of table.entry.n table.entry.starts.now s place }
{
    Judging {
        standing: outside_or(table, s.standing, place),
        last: place,
        ..s
    }
}

fn outside_or(table: MoveTable<'_>, standing: Standing, place: u32) -> Standing
    requires { Staying table.starts.now standing }
    ensures { result ≡ outside_or table.entry.n table.entry.starts.now standing place }
{
    match standing {
        Standing::Broken if walks::is_unfindable(table, place) => Standing::Outside(place),
        _ => standing,
    }
}

// The answer, after the last record.
pub(crate) fn verdict(s: Judging) -> Result<u32, Unanswered>
    ensures { result ≡ verdict_of s.standing s.interval s.fallen }
{
    let refusal = match s.standing {
        Standing::Clear => return Ok(s.interval),
        Standing::Fallen => return Err(Unanswered::PlaceOrder(s.fallen)),
        Standing::Misshapen => Refusal::TableShape,
        Standing::Mismeasured(x) => Refusal::BrokenInterval(x),
        Standing::Outside(place) => Refusal::PlaceRange(place),
        Standing::Broken => Refusal::BrokenInterval(s.interval),
    };
    Err(Unanswered::Refused(refusal))
}
