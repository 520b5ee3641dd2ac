// The inverse through a move table: the place that one is reached from. Any numbers may stand in the tables.
//
// The contract is one equation with the definition in specs/. On the tables of a legal list it is the inverse of the
// list's function (proofs/LegalPreimages).

#![tactic(auto)]

ghost use Rattle.std.specs.Prelude.{◌≡◌, ◌<◌, length};
ghost use Rattle.outcomes.specs.Refusal.{says};
ghost use Rattle.outcomes.specs.Search.{lowest_below};
ghost use Rattle.tables.specs.Tables.{tables_in};
ghost use Rattle.preimages.specs.Inverse.{inverse_of};
ghost use Rattle.preimages.specs.Parts.{image_has};

use outcomes::Refusal;
use tables::MoveTable;

// A place and the interval that has it.
#[derive(Clone, Copy)]
pub struct Source {
    pub place: u32,
    pub interval: u32,
}

// Whether interval x sends a place to j. The place that j would come from is as far above x's start as j is above its image, so
// that it is below x's end where that distance is below the length: no start is read, and there is no sum to overflow.
#[tactic(auto, unfolding(crate::specs::Parts::image_has))]
fn is_source(table: MoveTable<'_>, x: usize, j: u32) -> bool
    requires { (x < length table.images.now) × (x < length table.lengths.now) }
    ensures { result ≡ image_has table.entry.images.now table.entry.lengths.now j x }
{
    let image = table.images[x];
    image <= j && j - image < table.lengths[x]
}

// The lowest interval that sends a place to j.
fn first_source(table: MoveTable<'_>, j: u32) -> Option<usize>
    requires { length table.lengths.now ≡ length table.images.now }
    ensures { result ≡ lowest_below (image_has table.entry.images.now table.entry.lengths.now j) (length table.entry.images.now) }
{
    for x in 0..table.images.len() {
        if is_source(table, x, j) {
            return Some(x);
        }
    }
    None
}

// The place that j is reached from, and its interval.
pub fn inverse(table: MoveTable<'_>, j: u32) -> Result<Source, Refusal>
    ensures { says result ≡ inverse_of table.entry.n (tables_in table.entry) j }
{
    if table.is_misshapen() {
        return Err(Refusal::TableShape);
    }
    if let Some(x) = table.first_wrong_length() {
        return Err(Refusal::BrokenInterval(x as u32));
    }
    if table.n <= j {
        return Err(Refusal::PlaceRange(j));
    }
    let Some(x) = first_source(table, j) else {
        return Err(Refusal::NoPreimage(j));
    };
    Ok(Source {
        place: table.starts[x] + (j - table.images[x]),
        interval: x as u32,
    })
}
