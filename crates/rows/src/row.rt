// A row with any number of slices, read on the heap.
ghost use Rattle.std.specs.Prelude.{◌≡◌};

use crate::fields::{Field, field_of};
use crate::lent::ROOM;
use std::alloc::{AllocError, Global};
use std::iter;

// What is called, and with what.
#[derive(Clone, Copy)]
pub struct Row<'a> {
    word: &'a [u8],
    numbers: &'a [u32],
    slices: &'a [Vec<u32>],
}

impl<'a> Row<'a> {
    pub fn word(&self) -> &[u8]
        ensures { result.now ≡ self.now.word.now }
    {
        self.word
    }

    pub fn numbers(&self) -> &[u32]
        ensures { result.now ≡ self.now.numbers.now }
    {
        self.numbers
    }

    pub fn slices(&self) -> &[Vec<u32>]
        ensures { result.now ≡ self.now.slices.now }
    {
        self.slices
    }
}

// The parts of a row, as read onto the heap. A `Row` lends them.
#[derive(Drop)]
pub(crate) struct Parts<'a> {
    word: &'a [u8],
    numbers: Vec<u32>,
    slices: Vec<Vec<u32>>,
}

impl<'a> Parts<'a> {
    // Adds the number to the last slice, or to the row's own numbers, so many times.
    fn add(&mut self, times: usize, number: u32) -> Result<(), AllocError> {
        let more = iter::repeat_n(number, times);
        match self.slices.last_mut() {
            Some(slice) => slice.extend(more),
            None => self.numbers.extend(more),
        }
    }

    // Reads a row, if each text behind its word is a field and there is room for all numbers.
    pub(crate) fn read(alloc: Global, line: &'a [u8]) -> Result<Option<Parts<'a>>, AllocError> {
        let mut texts = line.split(|b| *b == b' ');
        let mut parts = Parts {
            word: texts.next().unwrap_or(b""),
            numbers: Vec::new(alloc),
            slices: Vec::new(alloc),
        };
        let mut room = ROOM;
        for text in texts {
            match field_of(text) {
                None => return Ok(None),
                Some(Field::Nothing) => {}
                Some(Field::Slice) => parts.slices.push(Vec::new(alloc))?,
                Some(Field::Numbers { times, number }) => {
                    let Some(left) = room.checked_sub(times) else {
                        return Ok(None);
                    };
                    room = left;
                    parts.add(times, number)?;
                }
            }
        }
        Ok(Some(parts))
    }

    // The row that has these parts.
    pub(crate) fn row(&self) -> Row<'_>
        ensures word { result.word.now ≡ self.now.word.now }
        ensures numbers { result.numbers.now ≡ self.now.numbers.items }
        ensures slices { result.slices.now ≡ self.now.slices.items }
    {
        Row {
            word: self.word,
            numbers: &self.numbers,
            slices: &self.slices,
        }
    }
}

#[cfg(test)]
mod tests {
    use super::*;
    use std::test::Fail;

    #[test]
    fn reads_a_row(rt: HostRuntime) -> Result<(), Fail> {
        let Some(parts) = Parts::read(rt.alloc(), b"find 1 3*7 : 2 :")? else {
            panic!(rt; "a row that can be read");
        };
        let row = parts.row();
        assert_eq!(rt; row.word(), b"find".as_slice());
        assert_eq!(rt; row.numbers(), [1, 7, 7, 7].as_slice());
        assert_eq!(rt; row.slices().len(), 2);
        Ok(())
    }
}
