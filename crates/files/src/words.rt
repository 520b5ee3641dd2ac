// Words of 32 bits in a file, least byte first.
ghost use Rattle.std.specs.Prelude.{◌≡◌, ◌+◌, ◌*◌, ◌≤◌, length};
ghost use Rattle.files.specs.Words.{word_of, words_from};

// Word i of the file.
pub(crate) fn word(bytes: &[u8], i: usize) -> u32
    requires { 4 * i + 4 ≤ length bytes.now }
    ensures { result ≡ word_of bytes.now i }
{
    let at = 4 * i;
    u32::from_le_bytes([bytes[at], bytes[at + 1], bytes[at + 2], bytes[at + 3]])
}

// Fills `to` with the words from the first-th on.
pub(crate) fn read_words(bytes: &[u8], first: usize, to: &mut [u32])
    requires { 4 * (first + length to.old) ≤ length bytes.now }
    ensures { to.new ≡ words_from bytes.now first (length to.old) }
{
    for (i, x) in to.iter_mut().enumerate() {
        *x = word(bytes, first + i);
    }
}
