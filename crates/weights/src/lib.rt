// The starts under an image, in a move table with any numbers in it: how many they are, where they stand, and the part of the
// table itself.
//
// Each contract on tables is one equation with its definition in specs/. On the tables of a legal list the weight is that of
// the list (proofs/LegalWeights).

#![tactic(auto)]

ghost use Rattle.std.specs.Prelude.{◌≡◌, ◌≤◌, false, eqb};
ghost use Rattle.outcomes.specs.Outcome.{◌then◌else◌};
ghost use Rattle.outcomes.specs.Refusal.{says};
ghost use Rattle.tables.specs.Tables.{links_in, tables, tables_in, unheld};
ghost use Rattle.tables.specs.Parts.{Indexed, Entered};
ghost use Rattle.weights.specs.Under.{under_first, weight_of, under_of, starts_under_of};
ghost use Rattle.weights.specs.Parts.{size_under};

use outcomes::Refusal;
use tables::MoveTable;

// Entries of a table that stand together: the first one's index, and how many. Where there are none it is the index that they
// would begin at, which may be the table's end.
#[derive(Clone, Copy)]
pub struct Stretch {
    pub first: u32,
    pub count: u32,
}

// The difference of the two divided by 2^32 and rounded up, which is 1 unless they are equal. Nothing is compared, so that there
// is no jump to foresee. The bound is for the sum that it stands in.
fn one_unless_equal(start: u32, image: u32) -> usize
    requires { start ≤ image }
    ensures { (result ≡ (eqb start image then 0 else 1)) × (result ≤ 1) }
{
    ((u64::from(image - start) + 4294967295) >> 32) as usize
}

// Where the stretch under x's image begins, which may be the table's end.
fn first(table: MoveTable<'_>, x: u32) -> usize
    requires entered { Entered (links_in table) x }
    requires held { unheld (links_in table) x ≡ false }
    ensures { result ≡ under_first (links_in table.entry) x }
{
    let at = x as usize;
    let h = table.holders[at] as usize;
    h + one_unless_equal(table.starts[h], table.images[at])
}

// Test 12 and the stretch's size.
fn size(table: MoveTable<'_>, x: u32) -> Result<u32, Refusal>
    requires { Indexed table.n (tables_in table) x }
    ensures { says result ≡ size_under table.entry.n (tables_in table.entry) x }
{
    let at = x as usize;
    if table.is_wrong_length(at) || table.is_unheld(x) {
        return Err(Refusal::BrokenInterval(x));
    }
    let image_end = u64::from(table.images[at]) + u64::from(table.lengths[at]);
    if u64::from(table.n) < image_end {
        return Err(Refusal::BrokenInterval(x));
    }
    let from = first(table, x);
    Ok(order::stretch_length(table.starts, from, (image_end - 1) as u32) as u32)
}

// How many starts lie under x's image.
pub fn weight(table: MoveTable<'_>, x: u32) -> Result<u32, Refusal>
    ensures { says result ≡ weight_of table.entry.n (tables_in table.entry) x }
{
    if table.is_misshapen() {
        return Err(Refusal::TableShape);
    }
    if table.starts.len() <= x as usize {
        return Err(Refusal::IntervalIndex(x));
    }
    size(table, x)
}

// Where the starts under x's image stand, and how many they are.
pub fn under(table: MoveTable<'_>, x: u32) -> Result<Stretch, Refusal>
    ensures { says result ≡ under_of table.entry.n (tables_in table.entry) x }
{
    let count = weight(table, x)?;
    Ok(Stretch {
        first: first(table, x) as u32,
        count,
    })
}

// The starts under x's image, as the part of `starts` that they are; empty where `under` refuses. The columns are parameters of
// their own here, since the answer borrows from the starts alone.
pub fn starts_under<'a>(
    n: u32,
    starts: &'a [u32],
    images: &[u32],
    holders: &[u32],
    lengths: &[u32],
    x: u32,
) -> &'a [u32]
    ensures { result.now ≡ starts_under_of n (tables starts.now images.now holders.now lengths.now) x }
{
    let table = MoveTable {
        n,
        starts,
        images,
        holders,
        lengths,
    };
    match under(table, x) {
        Err(_) => &starts[0..0],
        Ok(s) => {
            let from = s.first as usize;
            &starts[from..from + s.count as usize]
        }
    }
}
