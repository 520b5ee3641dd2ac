// How far a walk along the starts goes, and how many of them it reads.
ghost use Rattle.std.specs.Prelude.{◌≡◌, ◌≤◌, ◌<◌, length};
ghost use Rattle.tables.specs.Tables.{max_intervals};
ghost use Rattle.walks.specs.Move.{read_to, walked_to};

// The interval that a walk reaches, and how many starts it reads.
#[derive(Clone, Copy)]
pub struct Walked {
    pub interval: u32,
    pub count: u64,
}

// The walk from interval x for place i: it goes on while there is a next interval that does not start above i. Most walks of a
// balanced table pass no start or few, and the next move waits for the interval: where none is passed that is x itself, and
// otherwise x and the number of starts passed, which is counted from 0, so that x is added once, at the end. Each way to return
// has its own number of starts read, so that nothing is left to work out where none is passed.
pub(crate) fn walk_from(starts: &[u32], x: u32, i: u32) -> Walked
    requires { (x < length starts.now) × (length starts.now ≤ max_intervals) }
    ensures { result ≡ walked_to starts.now x i }
{
    let next = x as usize + 1;
    if starts.len() <= next {
        return Walked {
            interval: x,
            count: 0,
        };
    }
    if i < starts[next] {
        return Walked {
            interval: x,
            count: 1,
        };
    }
    let reached = x + (1 + order::stretch_length(starts, next + 1, i) as u32);
    Walked {
        interval: reached,
        count: read_to(starts.len(), x, reached),
    }
}

// How many starts a walk from interval `from` to interval `reached` reads in a table of `intervals`: one for each interval that it
// goes past, and the start behind the interval reached, which ends the walk; behind the last interval there is none. The indexes
// tell it, so that no loop has a counter for it.
fn read_to(intervals: usize, from: u32, reached: u32) -> u64
    requires { (from ≤ reached) × (reached < intervals) × (intervals ≤ max_intervals) }
    ensures { result ≡ read_to intervals from reached }
{
    let past = u64::from(reached - from);
    if reached as usize + 1 < intervals {
        past + 1
    } else {
        past
    }
}
