// Balance, the forecast and the search for a degree as C functions on numbers and slices, for a host program in Rust or C: thin above the
// proved operations. docs/BOUNDARY.md says what a caller owes and how an answer is read.
// Each slice is a parameter of its own, since that is the C interface.

#![tactic(auto)]

ghost use Rattle.std.specs.Prelude.{◌≡◌};
ghost use Rattle.outcomes.specs.Refusal.{says};
ghost use Rattle.runs.specs.Runs.{runs};
ghost use Rattle.balance.specs.Lent.{lent};
ghost use Rattle.export_balance.specs.Answers.{balance_answer, forecast_answer, degree_answer};
ghost use Rattle.export_balance.specs.Answers.{BalanceAnswered, ForecastAnswered, DegreeAnswered};

use forecasts::{BalancedSize, LeastDegree};
use outcomes::Refusal;
use runs::RunList;
use tables::MoveTableMut;

// The answer of balance: how many intervals the balanced list has.
#[repr(C)]
#[derive(Clone, Copy)]
pub struct BalanceAnswer {
    pub number: u32,
    pub place: u32,
    pub intervals: u32,
}

impl From<Result<u32, Refusal>> for BalanceAnswer {
    ghost from_gives = { λ balanced r. r ≡ balance_answer (says balanced) };

    fn from(balanced: Result<u32, Refusal>) -> BalanceAnswer {
        match balanced {
            Ok(count) => BalanceAnswer {
                number: 0,
                place: 0,
                intervals: count,
            },
            Err(refusal) => BalanceAnswer {
                number: refusal.number(),
                place: refusal.place(),
                intervals: 0,
            },
        }
    }
}

// The answer of the forecast: how many intervals the balanced list has, and how many cuts make them.
#[repr(C)]
#[derive(Clone, Copy)]
pub struct ForecastAnswer {
    pub number: u32,
    pub place: u32,
    pub intervals: u32,
    pub cuts: u32,
}

impl From<Result<BalancedSize, Refusal>> for ForecastAnswer {
    ghost from_gives = { λ forecasted r. r ≡ forecast_answer (says forecasted) };

    fn from(forecasted: Result<BalancedSize, Refusal>) -> ForecastAnswer {
        match forecasted {
            Ok(size) => ForecastAnswer {
                number: 0,
                place: 0,
                intervals: size.intervals,
                cuts: size.cuts,
            },
            Err(refusal) => ForecastAnswer {
                number: refusal.number(),
                place: refusal.place(),
                intervals: 0,
                cuts: 0,
            },
        }
    }
}

// The answer of the search: a degree, and how many intervals the list balanced at it has.
#[repr(C)]
#[derive(Clone, Copy)]
pub struct DegreeAnswer {
    pub number: u32,
    pub place: u32,
    pub degree: u32,
    pub intervals: u32,
}

impl From<Result<LeastDegree, Refusal>> for DegreeAnswer {
    ghost from_gives = { λ sought r. r ≡ degree_answer (says sought) };

    fn from(sought: Result<LeastDegree, Refusal>) -> DegreeAnswer {
        match sought {
            Ok(least) => DegreeAnswer {
                number: 0,
                place: 0,
                degree: least.degree,
                intervals: least.intervals,
            },
            Err(refusal) => DegreeAnswer {
                number: refusal.number(),
                place: refusal.place(),
                degree: 0,
                intervals: 0,
            },
        }
    }
}

// Balances a list into four lent tables, over a lent working table.
#[unsafe(no_mangle)]
pub extern "C" fn zibewoka_balance(
    n: u32,
    starts: &[u32],
    images: &[u32],
    d: u32,
    to_starts: &mut [u32],
    to_images: &mut [u32],
    to_holders: &mut [u32],
    to_lengths: &mut [u32],
    working: &mut [u32],
) -> BalanceAnswer
    ensures { BalanceAnswered n (runs starts.now images.now) d
        (lent to_starts.old to_images.old to_holders.old to_lengths.old
        working.old)
        (lent to_starts.new to_images.new to_holders.new to_lengths.new
        working.new) result }
{
    let list = RunList { n, starts, images };
    let mut to = MoveTableMut {
        starts: to_starts,
        images: to_images,
        holders: to_holders,
        lengths: to_lengths,
    };
    BalanceAnswer::from(balance::balance(list, d, &mut to, working))
}

// How large a list will be at a degree, over a lent working table.
#[unsafe(no_mangle)]
pub extern "C" fn zibewoka_forecast(
    n: u32,
    starts: &[u32],
    images: &[u32],
    d: u32,
    working: &mut [u32],
) -> ForecastAnswer
    ensures { ForecastAnswered n (runs starts.now images.now) d
        working.old working.new result }
{
    let list = RunList { n, starts, images };
    ForecastAnswer::from(forecasts::forecast(list, d, working))
}

// The least degree at which a list is small enough, over a lent working table.
#[unsafe(no_mangle)]
pub extern "C" fn zibewoka_least_degree(
    n: u32,
    starts: &[u32],
    images: &[u32],
    entries: u32,
    working: &mut [u32],
) -> DegreeAnswer
    ensures { DegreeAnswered n (runs starts.now images.now) entries
        working.old working.new result }
{
    let list = RunList { n, starts, images };
    DegreeAnswer::from(forecasts::least_degree(list, entries, working))
}
