//! Finds the end of a line.

ghost use Rattle.std.specs.Prelude.{◌≡◌, ◌≢◌, ◌<◌, ◌≤◌, All, length, slice_index, take};

/// The number of bytes before the first one that is `end`, or of all bytes.
pub fn len_before(bytes: &[u8], end: u8) -> usize
    ensures within { result ≤ length bytes.now }
    ensures before { All (λ byte. byte ≢ end) (take result bytes.now) }
    ensures found { result < length bytes.now → slice_index bytes.now result ≡ end }
{
    bytes
        .iter()
        .position(|byte| *byte == end)
        .unwrap_or(bytes.len())
}
