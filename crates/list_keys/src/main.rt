// The keys of lists and files: those of the paper that are run and not proved, and each operation with each number that
// it can refuse with. The library `rows` says what a row is and how it is answered; the calls are
//
//     check n : starts : images
//     inverse-list n, the sizes of two lent tables : starts : images
//     balance n d, the sizes of four lent tables and of the working table : starts : images
//     file, its count of bytes, the size of a lent text : its words
//     next-list n, the sizes of two lent tables : starts : images
//     forecast n d, the size of the working table : starts : images
//     least-degree n, how many entries, the size of the working table : starts : images
//     fold n, the sizes of two lent tables : starts : images
//
// A file is answered by its check, and then by how many bytes its listing has.

#![tactic(auto)]

mod answers;
mod lent;

use rows::{LentRow, out};
use runs::RunList;
use std::io;

// The list that a row lends.
fn list<'a>(n: u32, starts: &'a [u32], images: &'a [u32]) -> RunList<'a> {
    RunList { n, starts, images }
}

// Runs what is called: a and b are starts and images.
fn call(rt: &impl Print, row: &LentRow<'_>) -> io::Result<()> {
    match (row.word(), row.numbers(), row.slices()) {
        (b"check", &[n], [a, b]) => answers::checked(rt, lists::check(list(n, a, b))),
        (b"inverse-list", &[n, size, size_2], [a, b]) => lent::with_tables(
            rt,
            size,
            size_2,
            |to| { answers::checked(rt, lists::inverse_list(list(n, a, b), to)) },
        ),
        (b"balance", &[n, d, size, size_2, size_3, size_4, size_5], [a, b]) => {
            let sizes = [size, size_2, size_3, size_4, size_5];
            lent::balance(rt, list(n, a, b), d, sizes)
        }
        (b"file", &[count, size], [words]) => lent::file(rt, count, size, words),
        (b"next-list", &[n, size, size_2], [a, b]) => lent::with_tables(rt, size, size_2, |to| {
            answers::count(rt, permutations::next_list(list(n, a, b), to))
        }),
        (b"forecast", &[n, d, size], [a, b]) => lent::with_table(rt, size, |working| {
            answers::size(rt, forecasts::forecast(list(n, a, b), d, working))
        }),
        (b"least-degree", &[n, entries, size], [a, b]) => lent::with_table(rt, size, |working| {
            answers::degree(rt, forecasts::least_degree(list(n, a, b), entries, working))
        }),
        (b"fold", &[n, size, size_2], [a, b]) => lent::with_tables(rt, size, size_2, |to| {
            answers::count(rt, folds::fold(list(n, a, b), to))
        }),
        _ => out::no_call(rt),
    }
}

fn main(rt: HostRuntime) -> io::Result<()> {
    rows::run_lent(&rt, |row| call(&rt, row))
}
