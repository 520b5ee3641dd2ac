// The bytes of words of 32 bits, least byte first.

// The first 256 bytes of the words, and zeros.
pub fn bytes_of(words: &[u32]) -> [u8; 256] {
    let mut laid = [0u8; 256];
    for (four, word) in laid.chunks_exact_mut(4).zip(words) {
        four.copy_from_slice(&word.to_le_bytes());
    }
    laid
}
