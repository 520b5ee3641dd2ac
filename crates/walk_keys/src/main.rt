// The keys of walks, which are calls on tables: those of the paper that are run and not proved, and each operation with
// each number that it can refuse with. The library `rows` says what a row is and how it is answered; the calls are
//
//     find n i : starts : images : holders : lengths
//     move n x i : starts : images : holders : lengths
//     moves n x i m : starts : images : holders : lengths
//     inverse n j : starts : images : holders : lengths
//     weight n x : starts : images : holders : lengths
//     starts-under n x : starts : images : holders : lengths
//     under n x : starts : images : holders : lengths
//     bookmark n, place, interval, distance, moves, and the count as a high and a low number : starts : images : holders : lengths
//     trail n, place, interval and distance of a fresh bookmark, m : starts : images : holders : lengths
//     questions n : starts : images : holders : lengths : places, at most eight
//
// `starts-under` is answered by how many starts there are, and which; `under` by the first one's index and how many there are.
// A bookmark and the records of questions are printed after the call. `trail` makes m moves of a bookmark, at least one, and is
// answered by the last.

#![tactic(auto)]

mod answers;
mod asking;

use bookmarks::Bookmark;
use rows::{LentRow, out};
use std::io;
use tables::MoveTable;

// The table that a row lends.
fn table<'a>(
    n: u32,
    starts: &'a [u32],
    images: &'a [u32],
    holders: &'a [u32],
    lengths: &'a [u32],
) -> MoveTable<'a> {
    MoveTable {
        n,
        starts,
        images,
        holders,
        lengths,
    }
}

// Moves a bookmark m times, but at least once.
fn advance_often(rt: &impl Print, table: MoveTable<'_>, fresh: Bookmark, m: u32) -> io::Result<()> {
    let mut marked = bookmarks::advanced(table, fresh);
    for _ in 1..m {
        marked = bookmarks::advanced(table, marked.bookmark);
    }
    answers::marked(rt, marked)
}

// Runs what is called of a bookmark.
fn mark(rt: &impl Print, row: &LentRow<'_>) -> io::Result<()> {
    match (row.word(), row.numbers(), row.slices()) {
        (b"bookmark", &[n, place, interval, distance, moves, high, low], [a, b, c, d]) => {
            let count = (u64::from(high) << 32) | u64::from(low);
            let before = Bookmark {
                place,
                interval,
                distance,
                moves,
                count,
            };
            answers::marked(rt, bookmarks::advanced(table(n, a, b, c, d), before))
        }
        (b"trail", &[n, place, interval, distance, m], [a, b, c, d]) => {
            let fresh = Bookmark {
                place,
                interval,
                distance,
                moves: 0,
                count: 0,
            };
            advance_often(rt, table(n, a, b, c, d), fresh, m)
        }
        _ => out::no_call(rt),
    }
}

// Runs what is called: a, b, c and d are starts, images, holders and lengths, and e the places of questions.
fn call(rt: &impl Print, row: &LentRow<'_>) -> io::Result<()> {
    match (row.word(), row.numbers(), row.slices()) {
        (b"find", &[n, i], [a, b, c, d]) => {
            answers::number(rt, walks::find(table(n, a, b, c, d), i))
        }
        (b"move", &[n, x, i], [a, b, c, d]) => {
            answers::moved(rt, walks::move_query(table(n, a, b, c, d), x, i))
        }
        (b"moves", &[n, x, i, m], [a, b, c, d]) => {
            answers::moved(rt, walks::repeated_moves(table(n, a, b, c, d), x, i, m))
        }
        (b"inverse", &[n, j], [a, b, c, d]) => {
            answers::inverted(rt, preimages::inverse(table(n, a, b, c, d), j))
        }
        (b"weight", &[n, x], [a, b, c, d]) => {
            answers::number(rt, weights::weight(table(n, a, b, c, d), x))
        }
        (b"starts-under", &[n, x], [a, b, c, d]) => {
            out::stretch(rt, weights::starts_under(n, a, b, c, d, x))
        }
        (b"under", &[n, x], [a, b, c, d]) => {
            answers::stretched(rt, weights::under(table(n, a, b, c, d), x))
        }
        (b"questions", &[n], [a, b, c, d, e]) => { asking::questions(rt, table(n, a, b, c, d), e) }
        _ => mark(rt, row),
    }
}

fn main(rt: HostRuntime) -> io::Result<()> {
    rows::run_lent(&rt, |row| call(&rt, row))
}
