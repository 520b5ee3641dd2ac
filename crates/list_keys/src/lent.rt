// The calls that are lent tables or a text, of at most 256 entries.
use super::answers;
use rows::out;
use runs::{RunList, RunListMut};
use std::io;
use tables::MoveTableMut;

// Lends a table to a call that prints its answer, and prints what the table holds then.
pub(crate) fn with_table<F: FnOnce(&mut [u32]) -> io::Result<()>>(
    rt: &impl Print,
    size: u32,
    answer: F,
) -> io::Result<()>
    requires { F.IsAlwaysCallable answer }
{
    let mut table = [7u32; 256];
    let table = &mut table[..rows::size(size)];
    answer(table)?;
    out::now(rt, table)
}

// The same with the two tables of a run list.
pub(crate) fn with_tables<F: FnOnce(&mut RunListMut<'_>) -> io::Result<()>>(
    rt: &impl Print,
    size: u32,
    size_2: u32,
    answer: F,
) -> io::Result<()>
    requires { F.IsAlwaysCallable answer }
{
    let mut starts = [7u32; 256];
    let mut images = [7u32; 256];
    let mut to = RunListMut {
        starts: &mut starts[..rows::size(size)],
        images: &mut images[..rows::size(size_2)],
    };
    answer(&mut to)?;
    out::now(rt, to.starts)?;
    out::now(rt, to.images)
}

// Balances into four lent tables, with a working table.
pub(crate) fn balance(
    rt: &impl Print,
    list: RunList<'_>,
    d: u32,
    sizes: [u32; 5],
) -> io::Result<()> {
    let mut starts = [7u32; 256];
    let mut images = [7u32; 256];
    let mut holders = [7u32; 256];
    let mut lengths = [7u32; 256];
    let mut working = [7u32; 256];
    let mut to = MoveTableMut {
        starts: &mut starts[..rows::size(sizes[0])],
        images: &mut images[..rows::size(sizes[1])],
        holders: &mut holders[..rows::size(sizes[2])],
        lengths: &mut lengths[..rows::size(sizes[3])],
    };
    let working = &mut working[..rows::size(sizes[4])];
    answers::count(rt, balance::balance(list, d, &mut to, working))?;
    out::now(rt, to.starts)?;
    out::now(rt, to.images)?;
    out::now(rt, to.holders)?;
    out::now(rt, to.lengths)?;
    out::now(rt, working)
}

// Checks the file that the words hold, of so many bytes, and lists it into the lent text, which is filled with #.
pub(crate) fn file(rt: &impl Print, count: u32, size: u32, words: &[u32]) -> io::Result<()> {
    let laid = rows::bytes_of(words);
    let file = &laid[..rows::size(count)];
    let mut text = [b'#'; 256];
    let text = &mut text[..rows::size(size)];
    answers::file(rt, file_checks::check_file(file))?;
    let count = listings::list_file(file, text);
    out::written(rt, count, text)
}
