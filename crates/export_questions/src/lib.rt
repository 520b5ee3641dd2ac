// Questions together as a C function on numbers and slices, for a host program in Rust or C: thin above the proved
// operation. docs/BOUNDARY.md says what a caller owes and how an answer is read.
// Each slice is a parameter of its own, since that is the C interface.
//
// The records are a slice too, and are filled in where they lie. A refusal's `place` is a place, an interval or a record's index.

#![tactic(auto)]

ghost use Rattle.std.specs.Prelude.{◌≡◌};
ghost use Rattle.tables.specs.Tables.{tables};
ghost use Rattle.questions.specs.Questions.{answered_says};
ghost use Rattle.export_questions.specs.Answers.{questions_answer, AnswersHost};

use questions::{Question, Unanswered};
use tables::MoveTable;

// The answer: the count is of the starts passed in finding. A record's index may pass 32 bits, so that the place has 64.
#[repr(C)]
#[derive(Clone, Copy)]
pub struct QuestionsAnswer {
    pub number: u32,
    pub count: u32,
    pub place: u64,
}

impl From<Result<u32, Unanswered>> for QuestionsAnswer {
    ghost from_gives = { λ answered r. r ≡ questions_answer (answered_says answered) };

    fn from(answered: Result<u32, Unanswered>) -> QuestionsAnswer {
        match answered {
            Ok(count) => QuestionsAnswer {
                number: 0,
                count,
                place: 0,
            },
            Err(Unanswered::PlaceOrder(index)) => QuestionsAnswer {
                number: 16,
                count: 0,
                place: index as u64,
            },
            Err(Unanswered::Refused(refusal)) => QuestionsAnswer {
                number: refusal.number(),
                count: 0,
                place: u64::from(refusal.place()),
            },
        }
    }
}

// Fills the records in, or leaves them all.
#[unsafe(no_mangle)]
pub extern "C" fn zibewoka_questions(
    n: u32,
    starts: &[u32],
    images: &[u32],
    holders: &[u32],
    lengths: &[u32],
    questions: &mut [Question],
) -> QuestionsAnswer
    ensures { AnswersHost n (tables starts.now images.now holders.now lengths.now) questions.old result questions.new }
{
    let table = MoveTable {
        n,
        starts,
        images,
        holders,
        lengths,
    };
    QuestionsAnswer::from(questions::answer(table, questions))
}
