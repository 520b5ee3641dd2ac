// A row whose numbers lie in what is lent. Reading it asks for no heap, and tells at most nine slices apart.
ghost use Rattle.std.specs.Prelude.{◌≡◌, take};

use crate::fields::{Field, field_of};
use crate::{MOST, input, is_heading, out};
use std::io;

// The numbers that a row may have, in its slices too: four slices of one more than 32,768, and its own.
pub const ROOM: usize = 131084;

// How many slices are told apart: more are as good as so many, for no call has them.
const MOST_SLICES: usize = 9;

// What is called, and with what.
#[derive(Clone, Copy)]
pub struct LentRow<'a> {
    word: &'a [u8],
    numbers: &'a [u32],
    slices: [&'a [u32]; MOST_SLICES],
    count: usize,
}

// Where the parts of a row end in the room for its numbers: first its own numbers, and then each slice.
#[derive(Clone, Copy)]
struct Ends {
    ends: [usize; MOST_SLICES + 1],
    slices: usize,
}

// Writes the numbers of a row to its room, if each text behind its word is a field and there is room for all numbers.
fn write(line: &[u8], room: &mut [u32]) -> Option<Ends> {
    let mut ends = [0; MOST_SLICES + 1];
    let mut slices = 0;
    let mut used: usize = 0;
    for text in line.split(|b| *b == b' ').skip(1) {
        match field_of(text)? {
            Field::Nothing => {}
            Field::Slice => {
                ends[slices] = used;
                slices = (slices + 1).min(MOST_SLICES);
            }
            Field::Numbers { times, number } => {
                let end = used.checked_add(times)?;
                room.get_mut(used..end)?.fill(number);
                used = end;
            }
        }
    }
    // The last part ends here, and so do those that the row hasn't.
    ends[slices..].fill(used);
    Some(Ends { ends, slices })
}

impl<'a> LentRow<'a> {
    // Reads a row, if each text behind its word is a field and there is room for all numbers.
    pub fn read(line: &'a [u8], room: &'a mut [u32]) -> Option<LentRow<'a>> {
        let read = write(line, room)?;
        let room: &'a [u32] = room;
        let mut slices: [&'a [u32]; MOST_SLICES] = [&[]; MOST_SLICES];
        for (slice, pair) in slices.iter_mut().zip(read.ends.windows(2)) {
            *slice = room.get(pair[0]..pair[1])?;
        }
        Some(LentRow {
            word: line.split(|b| *b == b' ').next().unwrap_or(b""),
            numbers: room.get(..read.ends[0])?,
            slices,
            count: read.slices.min(MOST_SLICES),
        })
    }

    pub fn word(&self) -> &[u8]
        ensures { result.now ≡ self.now.word.now }
    {
        self.word
    }

    pub fn numbers(&self) -> &[u32]
        ensures { result.now ≡ self.now.numbers.now }
    {
        self.numbers
    }

    pub fn slices(&self) -> &[&[u32]]
        ensures { result.now ≡ take self.now.count self.now.slices }
    {
        &self.slices[..self.count.min(MOST_SLICES)]
    }
}

// Prints a row, reads it and has it answered.
fn run_row<'a, R: Print, F: Fn(&LentRow<'_>) -> io::Result<()>>(
    rt: &R,
    line: &'a [u8],
    room: &'a mut [u32],
    answer: &F,
) -> io::Result<()>
    requires { F.IsAlwaysCallable answer.now }
{
    out::line(rt, line)?;
    if is_heading(line) {
        return Ok(());
    }
    match LentRow::read(line, room) {
        Some(row) => answer(&row),
        None => out::no_call(rt),
    }
}

// Runs the rows on standard input as `run` does, with no heap. A row's ninth slice has the numbers of all behind it too.
pub fn run_lent<R: Print + Input, F: Fn(&LentRow<'_>) -> io::Result<()>>(
    rt: &R,
    answer: F,
) -> io::Result<()>
    requires { F.IsAlwaysCallable answer }
{
    let mut text = [0u8; MOST];
    let got = input::read(rt, &mut text)?;
    let mut room = [0; ROOM];
    for row in text[..got].split_inclusive(|b| *b == b'\n') {
        run_row(
            rt,
            row.strip_suffix(b"\n").unwrap_or(row),
            &mut room,
            &answer,
        )?;
    }
    Ok(())
}

#[cfg(test)]
mod tests {
    use super::*;
    use std::test::Fail;

    #[test]
    fn reads_a_lent_row(rt: HostRuntime) -> Result<(), Fail> {
        let mut room = [0; 8];
        let Some(row) = LentRow::read(b"find 1 3*7 : 2 :", &mut room) else {
            panic!(rt; "a row that can be read");
        };
        assert_eq!(rt; row.word(), b"find".as_slice());
        assert_eq!(rt; row.numbers(), [1, 7, 7, 7].as_slice());
        assert_eq!(rt; row.slices().len(), 2);
        Ok(())
    }
}
