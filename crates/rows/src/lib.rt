// Rows of a table of calls, for programs that run the keys, the answers that are known: a key is a row in the program's
// file `stdin`, and its lines in `stdout`. This crate is part of the tests, and not of the library.
//
// A row is a word, its numbers, and its slices, each behind a colon, with a space between any two of these:
//
//     word number number : number number : number
//     # a heading
//
// All numbers are decimal and have at most 32 bits, and `3*7` stands for 7 7 7. The program prints the row and what it
// answers: 0 and its values, or the number and the place of the refusal. What is lent has at most 256 entries, sevens
// before the call (a text: #), and is printed after it, refused or not. A heading has no answer, and any row that is no
// call is answered by `no call`.

#![tactic(auto)]

mod fields;
pub mod input;
mod lent;
pub mod out;
mod row;
mod words;

ghost use Rattle.std.specs.Prelude.{◌≤◌};

pub use lent::{LentRow, ROOM, run_lent};
use row::Parts;
pub use row::Row;
use std::io;
pub use words::bytes_of;

// So many bytes of standard input are read.
const MOST: usize = 65536;

// Whether a row's word is #.
fn is_heading(line: &[u8]) -> bool {
    matches!(line, [b'#'] | [b'#', b' ', ..])
}

// Prints a row, reads it and has it answered.
fn run_row<R: Print + AllocGlobal, F: Fn(&Row<'_>) -> io::Result<()>>(
    rt: &R,
    line: &[u8],
    answer: &F,
) -> io::Result<()>
    requires { F.IsAlwaysCallable answer.now }
{
    out::line(rt, line)?;
    if is_heading(line) {
        return Ok(());
    }
    match Parts::read(rt.alloc(), line)? {
        Some(parts) => answer(&parts.row()),
        None => out::no_call(rt),
    }
}

// Runs the rows on standard input one after the other: `answer` prints what each calls and is answered.
pub fn run<R: Print + Input + AllocGlobal, F: Fn(&Row<'_>) -> io::Result<()>>(
    rt: &R,
    answer: F,
) -> io::Result<()>
    requires { F.IsAlwaysCallable answer }
{
    let mut text = [0u8; MOST];
    let got = input::read(rt, &mut text)?;
    for row in text[..got].split_inclusive(|b| *b == b'\n') {
        run_row(rt, row.strip_suffix(b"\n").unwrap_or(row), &answer)?;
    }
    Ok(())
}

// The size of what is lent, of which the program has 256 entries.
pub fn size(number: u32) -> usize
    ensures { result ≤ 256 }
{
    (number as usize).min(256)
}

#[cfg(test)]
mod tests {
    use super::*;
    use std::alloc::Allocator;
    use std::cell::Cell;
    use std::fmt::Display;
    use std::io::{BufRead, Lines};
    use std::test::Fail;

    // A runtime that reads its text and drops what is printed.
    #[derive(Drop)]
    struct Typed(&'static [u8]);

    impl Input for Typed {
        type Reader = &'static [u8];

        fn read_line<A: Allocator + Clone>(&self, buf: &mut String<A>) -> io::Result<usize> {
            self.reader().read_line(buf)
        }

        fn lines<A: Allocator>(&self, alloc: A) -> Lines<&'static [u8], A> {
            self.reader().lines(alloc)
        }

        fn reader(&self) -> &'static [u8] {
            self.0
        }
    }

    impl Print for Typed {
        fn print<D: Display + Drop>(&self, value: D) -> io::Result<()> {
            Ok(())
        }

        fn println<D: Display + Drop>(&self, value: D) -> io::Result<()> {
            Ok(())
        }

        fn write_all(&self, bytes: &[u8]) -> io::Result<()> {
            Ok(())
        }
    }

    const TEXT: &[u8] =
        b"# a heading\nten 5 : 1 : 2 : 3 : 4 : 5 : 6 : 7 : 8 : 9 : 2*7 8\nno call\n";

    #[test]
    fn runs_a_row_of_ten_slices(rt: HostRuntime) -> Result<(), Fail> {
        let rows = Cell::new(0u8);
        run(&(Typed(TEXT), rt.alloc()), |row| {
            rows.set(rows.get().saturating_add(1));
            assert_eq!(rt; row.word(), b"ten".as_slice());
            assert_eq!(rt; row.numbers(), [5].as_slice());
            assert_eq!(rt; row.slices().len(), 10);
            let first = row.slices().first().expect(&rt, "a slice");
            assert_eq!(rt; first.as_slice(), [1].as_slice());
            let tenth = row.slices().last().expect(&rt, "a slice");
            assert_eq!(rt; tenth.as_slice(), [7, 7, 8].as_slice());
            Ok(())
        })?;
        assert_eq!(rt; rows.get(), 1);
        Ok(())
    }

    #[test]
    fn runs_it_with_nine_slices(rt: HostRuntime) -> Result<(), Fail> {
        let rows = Cell::new(0u8);
        run_lent(&Typed(TEXT), |row| {
            rows.set(rows.get().saturating_add(1));
            assert_eq!(rt; row.slices().len(), 9);
            let ninth = row.slices().last().expect(&rt, "a slice");
            assert_eq!(rt; *ninth, [9, 7, 7, 8].as_slice());
            Ok(())
        })?;
        assert_eq!(rt; rows.get(), 1);
        Ok(())
    }
}
