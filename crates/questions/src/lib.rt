// Questions together: one lent list of records, each with a place, is filled in with the interval that has the place and
// with the move from there.
//
// All records are judged before one is filled in, so that a refusal leaves them all. Places must not fall from record to
// record: one pass along the starts then finds all intervals, and counts the answer (specs/Agree). It is made once to judge and
// once to fill in, since nothing is lent to keep the intervals in. specs/Questions says the order of the tests, the answer and
// each record; specs/Agree that each record agrees with find and move done alone.

#![tactic(auto)]

mod filling;
mod finding;
mod judging;

ghost use Rattle.tables.specs.Tables.{tables_in};
ghost use Rattle.questions.specs.Questions.{Answers};

use outcomes::Refusal;
use tables::MoveTable;

// A question: its place is handed in, all else is filled in. The interval that has the place, and where a move from there
// leads: the place and the interval reached, how many starts that walk read, and the distance of the place reached from the
// start of that interval.
#[repr(C)]
#[derive(Clone, Copy)]
pub struct Question {
    pub place: u32,
    pub interval: u32,
    pub to_place: u32,
    pub to_interval: u32,
    pub count: u32,
    pub distance: u32,
}

// Why no question is answered. The index of a record whose place falls may pass 32 bits, so that it stands in a case of its own.
#[derive(Clone, Copy)]
pub enum Unanswered {
    PlaceOrder(usize),
    Refused(Refusal),
}

// Fills the records in, and answers how many starts were passed in finding all intervals; or refuses them all, and leaves them.
//
// Both loops over the lent records are here. What is done with a record stands in `judging` and in `filling`.
pub fn answer(table: MoveTable<'_>, questions: &mut [Question]) -> Result<u32, Unanswered>
    ensures { Answers table.entry.n (tables_in table.entry) questions.old result questions.new }
{
    let mut judging = judging::begin(table);
    for (i, q) in questions.iter().enumerate() {
        judging = judging::judge(table, judging, *q, i);
    }
    let passed = judging::verdict(judging)?;
    let mut x = 0;
    for q in questions.iter_mut() {
        *q = filling::fill(table, *q, x);
        x = q.interval;
    }
    Ok(passed)
}
