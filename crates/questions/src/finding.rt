// The pass along the starts that finds all intervals.
ghost use Rattle.std.specs.Prelude.{◌≡◌, ◌+◌, ◌≤◌, ◌<◌, length};
ghost use Rattle.tables.specs.Tables.{max_intervals};
ghost use Rattle.walks.specs.Move.{passed};

// The interval that a pass which stands at interval x comes to for place i, as `walks::reach_from` has it, with a look at the next
// four starts at once, for judging: how far one place lies from the next can't be foreseen. Where many places share an
// interval the plain walk is the faster one, so filling in makes that: docs/DECISIONS.md has the times.
#[tactic(auto, using(walks::proofs::Reached::passed_end))]
pub(crate) fn find_near(starts: &[u32], x: u32, i: u32) -> u32
    requires { (x < length starts.now) × (length starts.now ≤ max_intervals) }
    ensures { result ≡ x + passed starts.now x i }
{
    (order::near_end(starts, x as usize + 1, i) - 1) as u32
}
