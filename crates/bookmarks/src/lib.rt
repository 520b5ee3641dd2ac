// Bookmarks: walks through the tables of a run list that their owners keep and move on.
//
// Each operation's contract gives the answer and the bookmark after it by their definitions in specs/, for any bookmark
// and any tables. On the tables of a legal list a bookmark follows the list's function (demand 2).

#![tactic(auto)]

mod marking;

ghost use Rattle.tables.specs.Tables.{tables_in};
ghost use Rattle.bookmarks.specs.Bookmark.{Advances};

use outcomes::Refusal;
use tables::MoveTable;
use walks::Step;

// A walk that its owner keeps: where it stands, the moves made, and how many starts they read. A move writes the place's distance
// from the interval's start and never looks at it, so that a bookmark may begin with any number there. It passes to hosts as it is,
// with no gap between its fields.
#[repr(C)]
#[derive(Clone, Copy)]
pub struct Bookmark {
    pub place: u32,
    pub interval: u32,
    pub distance: u32,
    pub moves: u32,
    pub count: u64,
}

// What a bookmark's move answers, and the bookmark after it.
#[derive(Clone, Copy)]
pub struct Marked {
    pub bookmark: Bookmark,
    pub moved: Result<Step, Refusal>,
}

// A bookmark's move: its answer and the bookmark after it, which a refusal leaves as it was.
pub fn advanced(table: MoveTable<'_>, b: Bookmark) -> Marked
    ensures { Advances table.entry.n (tables_in table.entry) b result.moved result.bookmark }
{
    let mut bookmark = b;
    let moved = advance(table, &mut bookmark);
    Marked { bookmark, moved }
}

// A bookmark's move on the spot: the bookmark is lent by its owner, and a refusal leaves it as it was.
#[tactic(auto, using(crate::proofs::Marks::advances_refused, crate::proofs::Marks::advances_full, crate::proofs::Marks::advances_on))]
pub fn advance(table: MoveTable<'_>, b: &mut Bookmark) -> Result<Step, Refusal>
    ensures { Advances table.entry.n (tables_in table.entry) b.old result b.new }
{
    let step = walks::move_query(table, b.interval, b.place)?;
    *b = marking::mark(*b, step)?;
    Ok(step)
}
