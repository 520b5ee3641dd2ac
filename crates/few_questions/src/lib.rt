// Questions together for a program that has few of them: it hands its records over and gets them back, by value.
//
// An array has a fixed number of records, since the library has no heap: a count says how many of them are asked about. specs/Few says what becomes of each.

#![tactic(auto)]

ghost use Rattle.std.specs.Prelude.{min};
ghost use Rattle.tables.specs.Tables.{tables_in};
ghost use Rattle.few_questions.specs.Few.{AnswersFew};

use questions::{Question, Unanswered};
use tables::MoveTable;

// The answer, and the records: those asked about as the answer leaves them, and the rest as they were.
#[derive(Clone, Copy)]
pub struct Few {
    pub answered: Result<u32, Unanswered>,
    pub questions: [Question; 8],
}

// Answers the first `count` records, or all where there are not as many.
pub fn answer_few(table: MoveTable<'_>, questions: [Question; 8], count: usize) -> Few
    ensures { AnswersFew table.entry.n (tables_in table.entry) (min count 8) questions result.answered result.questions }
{
    let mut lent = questions;
    let answered = questions::answer(table, &mut lent[..count.min(8)]);
    Few {
        answered,
        questions: lent,
    }
}
