//! Texts that C passes as bytes.

ghost use Rattle.std.specs.Prelude.{◌≡◌, ◌≤◌, ◌<◌, ℕ, length, slice_index, take};

// The offset of the first byte that isn't ASCII, or the length.
fn ascii_len(text: &[u8]) -> usize
    ensures within { result ≤ length text.now }
    ensures before { (k : ℕ) → k < result → slice_index text.now k < 128 }
    ensures there { result < length text.now → 128 ≤ slice_index text.now result }
{
    for (index, byte) in text.iter().enumerate() {
        if *byte >= 128 {
            return index;
        }
    }
    text.len()
}

/// The text before the first byte that isn't ASCII, or the whole text.
pub(crate) fn ascii_prefix(text: &[u8]) -> &str
    ensures within { length result.now ≤ length text.now }
    ensures prefix { result.now ≡ take (length result.now) text.now }
    ensures there { length result.now < length text.now
        → 128 ≤ slice_index text.now (length result.now) }
{
    match std::str::from_utf8(&text[..ascii_len(text)]) {
        Ok(prefix) => prefix,
        Err(_) => unreachable!(),
    }
}
