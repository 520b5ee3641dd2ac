// The answer struct for each of the library's answers.
ghost use Rattle.std.specs.Prelude.{◌≡◌};
ghost use Rattle.outcomes.specs.Refusal.{says};
ghost use Rattle.export_walks.specs.Answers.{find_answer, moves_answer, inverse_answer, weight_answer};

use super::{IntervalAnswer, MovesAnswer, WeightAnswer};
use outcomes::Refusal;
use preimages::Source;
use walks::Step;

// What was found about `place`.
pub(crate) fn of_find(answer: Result<u32, Refusal>, place: u32) -> IntervalAnswer
    ensures { result ≡ find_answer place (says answer) }
{
    IntervalAnswer::from(answer.map(|interval| Source { place, interval }))
}

impl From<Result<Step, Refusal>> for MovesAnswer {
    ghost from_gives = { λ answer r. r ≡ moves_answer (says answer) };

    fn from(answer: Result<Step, Refusal>) -> MovesAnswer {
        match answer {
            Ok(step) => MovesAnswer {
                number: 0,
                place: step.place,
                interval: step.interval,
                distance: step.distance,
                count: step.count,
            },
            Err(refusal) => MovesAnswer {
                number: refusal.number(),
                place: refusal.place(),
                interval: 0,
                distance: 0,
                count: 0,
            },
        }
    }
}

impl From<Result<Source, Refusal>> for IntervalAnswer {
    ghost from_gives = { λ answer r. r ≡ inverse_answer (says answer) };

    fn from(answer: Result<Source, Refusal>) -> IntervalAnswer {
        match answer {
            Ok(source) => IntervalAnswer {
                number: 0,
                place: source.place,
                interval: source.interval,
            },
            Err(refusal) => IntervalAnswer {
                number: refusal.number(),
                place: refusal.place(),
                interval: 0,
            },
        }
    }
}

impl From<Result<u32, Refusal>> for WeightAnswer {
    ghost from_gives = { λ answer r. r ≡ weight_answer (says answer) };

    fn from(answer: Result<u32, Refusal>) -> WeightAnswer {
        match answer {
            Ok(weight) => WeightAnswer {
                number: 0,
                place: 0,
                weight,
            },
            Err(refusal) => WeightAnswer {
                number: refusal.number(),
                place: refusal.place(),
                weight: 0,
            },
        }
    }
}
