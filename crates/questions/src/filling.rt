// A record filled in, once all are judged.
ghost use Rattle.std.specs.Prelude.{◌≡◌};
ghost use Rattle.tables.specs.Tables.{links_in};
ghost use Rattle.questions.specs.Questions.{filled_in};
ghost use Rattle.questions.specs.Turns.{Placed};

use super::Question;
use tables::MoveTable;

// The record filled in, its interval found from interval x on.
pub(crate) fn fill(table: MoveTable<'_>, q: Question, x: u32) -> Question
    requires { Placed (links_in table) x q.place }
    ensures { result ≡ filled_in (links_in table.entry) q }
{
    let place = q.place;
    let interval = walks::reach_from(table.starts, x, place);
    let step = walks::step_from(table, interval, place);
    Question {
        place,
        interval,
        to_place: step.place,
        to_interval: step.interval,
        count: step.count as u32,
        distance: step.distance,
    }
}
