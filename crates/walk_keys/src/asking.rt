// Questions together, as a row asks them: about at most eight places.
use questions::{Question, Unanswered};
use rows::out;
use std::{array, io};
use tables::MoveTable;

// A record for each of the first eight places, with sevens in the fields to be filled in. Those that have no place are not
// lent.
fn records_of(places: &[u32]) -> [Question; 8] {
    array::from_fn(|i| Question {
        place: places.get(i).copied().unwrap_or(0),
        interval: 7,
        to_place: 7,
        to_interval: 7,
        count: 7,
        distance: 7,
    })
}

// The answer, as the rest of a line.
fn answer(rt: &impl Print, a: Result<u32, Unanswered>) -> io::Result<()> {
    match a {
        Ok(c) => out::values(rt, &[0, c]),
        Err(Unanswered::Refused(r)) => out::refusal(rt, r),
        Err(Unanswered::PlaceOrder(i)) => out::values(rt, &[16, i]),
    }
}

// What a record that was lent holds: its place, the interval found, the place and the interval reached, the count, and the
// distance.
fn now(rt: &impl Print, q: &Question) -> io::Result<()> {
    println!(rt;
        "now {} {} {} {} {} {}",
        q.place, q.interval, q.to_place, q.to_interval, q.count, q.distance
    )
}

// Asks about the places together, and prints the answer and the records that were lent, a line each.
pub(crate) fn questions(rt: &impl Print, table: MoveTable<'_>, places: &[u32]) -> io::Result<()> {
    let count = places.len().min(8);
    let few = few_questions::answer_few(table, records_of(places), count);
    answer(rt, few.answered)?;
    for q in &few.questions[..count] {
        now(rt, q)?;
    }
    Ok(())
}
