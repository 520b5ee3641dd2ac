// The search for a degree, from the lowest up.
ghost use Rattle.runs.specs.Runs.{runs_in};
ghost use Rattle.bounds.specs.Bound.{Boundable, Opens};
ghost use Rattle.plans.specs.Plan.{Plans};
ghost use Rattle.plans.specs.Parts.{Seekable};

use super::CutsAt;
use bounds::First;
use outcomes::Refusal;
use runs::RunList;

// What is asked: the least degree from `low` on at which the list, with its order by image, has at most `entries` intervals.
#[derive(Clone, Copy)]
pub(crate) struct Search<'a> {
    pub(crate) list: RunList<'a>,
    pub(crate) order: &'a [u32],
    pub(crate) entries: u32,
    pub(crate) low: u32,
}

impl Search<'_> {
    // The first degree from `low` on that has to be looked at: at those before it the weights alone tell that there are too many
    // intervals; and the first at which they tell that nothing is cut. They are not asked where they can rule nothing out, though they
    // might tell the other: all runs together are certain of fewer than k/d cuts, since their weights come to k. So it is where no
    // limit is set, and wherever B fits.
    fn first_open(self, spare: &mut [u32]) -> First
        requires { Boundable self.list.n (runs_in self.list) self.order.now spare.old self.low }
        ensures { Opens self.entry.list.n (runs_in self.entry.list) self.entry.low self.entry.entries result }
    {
        let k = self.list.starts.len();
        let enough = self.entries as usize;
        if k + k / self.low as usize <= enough {
            return First {
                degree: self.low,
                whole: outcomes::MOST_DEGREE + 1,
            };
        }
        bounds::first_degree(self.list, self.order, spare, self.low, enough)
    }

    // The cuts at the least degree from `first.degree` on that leaves few enough intervals, found by a sweep for each degree up
    // to `first.whole`, where there are none to look for. If there is no such degree, the working table is cleared.
    fn sweep_from(
        self,
        first: First,
        spare: &mut [u32],
        working: &mut [u32],
    ) -> Result<CutsAt, Refusal>
        requires { Seekable self.list.n (runs_in self.list) self.low self.order.now spare.old working.old
            × Opens self.list.n (runs_in self.list) self.low self.entries first }
        ensures { Plans self.entry.list.n (runs_in self.entry.list) self.entry.entries self.entry.low
            working.old working.new result }
    {
        for d in first.degree..first.whole {
            let cuts = cuts::find_cuts(self.list, self.order, spare, d, working);
            if self.list.starts.len() + cuts <= self.entries as usize {
                return Ok(CutsAt { degree: d, cuts });
            }
        }
        if first.whole <= outcomes::MOST_DEGREE {
            return Ok(CutsAt {
                degree: first.whole,
                cuts: 0,
            });
        }
        super::clear(self.low, self.list.starts.len(), working);
        Err(Refusal::NoDegreeFits(self.entries))
    }

    // The cuts at the least degree that leaves few enough intervals, in `working`; if there is none, that is cleared. `spare` is room
    // to work in.
    pub(crate) fn seek(self, spare: &mut [u32], working: &mut [u32]) -> Result<CutsAt, Refusal>
        requires { Seekable self.list.n (runs_in self.list) self.low self.order.now spare.old working.old }
        ensures { Plans self.entry.list.n (runs_in self.entry.list) self.entry.entries self.entry.low
            working.old working.new result }
    {
        let first = self.first_open(spare);
        self.sweep_from(first, spare, working)
    }
}
