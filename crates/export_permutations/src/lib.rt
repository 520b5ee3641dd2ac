// The next list and the fold as C functions on numbers and slices, for a host program in Rust or C: thin above the proved operations.
// docs/BOUNDARY.md says what a caller owes and how an answer is read.
// Each slice is a parameter of its own, since that is the C interface.

#![tactic(auto)]

ghost use Rattle.std.specs.Prelude.{◌≡◌};
ghost use Rattle.outcomes.specs.Refusal.{says};
ghost use Rattle.runs.specs.Runs.{runs};
ghost use Rattle.folds.specs.Lent.{fold_of};
ghost use Rattle.export_permutations.specs.Answers.{runs_answer, NextAnswered, RunsAnswered};

use outcomes::Refusal;
use runs::{RunList, RunListMut};

// The answer: how many runs the list has that was written.
#[repr(C)]
#[derive(Clone, Copy)]
pub struct RunsAnswer {
    pub number: u32,
    pub place: u32,
    pub runs: u32,
}

impl From<Result<u32, Refusal>> for RunsAnswer {
    ghost from_gives = { λ answer r. r ≡ runs_answer (says answer) };

    fn from(answer: Result<u32, Refusal>) -> RunsAnswer {
        match answer {
            Ok(count) => RunsAnswer {
                number: 0,
                place: 0,
                runs: count,
            },
            Err(refusal) => RunsAnswer {
                number: refusal.number(),
                place: refusal.place(),
                runs: 0,
            },
        }
    }
}

// Writes the next list to two lent tables.
#[unsafe(no_mangle)]
pub extern "C" fn zibewoka_next_list(
    n: u32,
    starts: &[u32],
    images: &[u32],
    to_starts: &mut [u32],
    to_images: &mut [u32],
) -> RunsAnswer
    ensures { NextAnswered n (runs starts.now images.now)
        to_starts.old to_images.old to_starts.new to_images.new result }
{
    let list = RunList { n, starts, images };
    let mut next = RunListMut {
        starts: to_starts,
        images: to_images,
    };
    RunsAnswer::from(permutations::next_list(list, &mut next))
}

// Writes the folded list to two lent tables.
#[unsafe(no_mangle)]
pub extern "C" fn zibewoka_fold(
    n: u32,
    starts: &[u32],
    images: &[u32],
    to_starts: &mut [u32],
    to_images: &mut [u32],
) -> RunsAnswer
    ensures { RunsAnswered
        (fold_of n (runs starts.now images.now) to_starts.old to_images.old)
        to_starts.old to_images.old to_starts.new to_images.new result }
{
    let list = RunList { n, starts, images };
    let mut folded = RunListMut {
        starts: to_starts,
        images: to_images,
    };
    RunsAnswer::from(folds::fold(list, &mut folded))
}
