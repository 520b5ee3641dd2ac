// The image of each place of a legal list of at most 7 places.
ghost use Rattle.std.specs.Prelude.{◌≡◌, take};
ghost use Rattle.runs.specs.Runs.{runs_in};
ghost use Rattle.permutations.specs.Values.{values_of};
ghost use Rattle.permutations.specs.Parts.{HasPlace, Near, Small};

use super::MAX_PLACES;
use runs::RunList;

// The run that has place p: x or the next.
fn run_near(list: RunList<'_>, x: usize, p: u32) -> usize
    requires { Near list.n (runs_in list) x p }
    ensures { HasPlace list.entry.n (runs_in list.entry) result p }
{
    if x + 1 < list.starts.len() && list.starts[x + 1] <= p {
        return x + 1;
    }
    x
}

// The images of the places, in front of zeros.
pub(crate) fn of_places(list: RunList<'_>) -> [u32; MAX_PLACES]
    requires { Small list.n (runs_in list) }
    ensures { take list.entry.n result ≡ values_of list.entry.n (runs_in list.entry) }
{
    let mut values = [0; MAX_PLACES];
    let mut x = 0;
    for p in 0..list.n {
        x = run_near(list, x, p);
        values[p as usize] = list.images[x] + (p - list.starts[x]);
    }
    values
}
