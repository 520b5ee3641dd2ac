// The fields of a row, what stands behind each of its spaces: a colon, a number, or how often a number stands there, a
// star and the number. A field may be empty, which is a second space.

// What a field says.
#[derive(Clone, Copy)]
pub(crate) enum Field {
    Nothing,
    Slice,
    Numbers { times: usize, number: u32 },
}

// The number that a text is. A sign is no digit, though `parse` reads one.
fn number_of(text: &[u8]) -> Option<u32> {
    if !text.iter().all(|b| b.is_ascii_digit()) {
        return None;
    }
    str::from_utf8(text).ok()?.parse().ok()
}

// A number that stands there as often as the number before the star says, which is at least 2.
fn repeated(times: &[u8], number: &[u8]) -> Option<Field> {
    let times = number_of(times)? as usize;
    let number = number_of(number)?;
    if times < 2 {
        return None;
    }
    Some(Field::Numbers { times, number })
}

// What a text says, if it is a field.
pub(crate) fn field_of(text: &[u8]) -> Option<Field> {
    match text {
        b"" => return Some(Field::Nothing),
        b":" => return Some(Field::Slice),
        _ => {}
    }
    match text.iter().position(|b| *b == b'*') {
        Some(star) => repeated(&text[..star], &text[star + 1..]),
        None => {
            let number = number_of(text)?;
            Some(Field::Numbers { times: 1, number })
        }
    }
}
