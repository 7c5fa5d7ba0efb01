//! The header of a message: three bytes.

ghost use Rattle.std.specs.Prelude.{◌≡◌, ◌↔◌, ◌≤◌, true, length, take, IfSome};
ghost use Rattle.dgt_decode.specs.Feeding.{IsWholeMessage};
ghost use Rattle.dgt_decode.specs.Taking.{Begins};

/// The top bit of a byte. It is set in the first byte of each message, and in no other.
pub const TOP_BIT: u8 = 128;

/// The size of a header in bytes. A message's total includes it.
pub const HEADER: usize = 3;

/// The total of a field update, the most common message.
pub const FIELD: usize = 5;

/// Whether the slice begins with a whole message that is as long as a field update.
#[inline(always)]
pub fn begins_with_field(bytes: &[u8]) -> bool
    ensures { (result ≡ true)
        ↔ (FIELD ≤ length bytes.now) × IsWholeMessage (take FIELD bytes.now) }
{
    let [first, 0, 5, square, piece, ..] = bytes else {
        return false;
    };
    *first >= TOP_BIT && *square < TOP_BIT && *piece < TOP_BIT
}

/// The total in a message's header, if the slice begins with a whole header.
#[inline]
pub fn first_total(bytes: &[u8]) -> Option<usize>
    ensures { IfSome result (λ total. Begins total bytes.now) }
{
    let [first, high, low, ..] = bytes else {
        return None;
    };
    let total = 128 * usize::from(*high) + usize::from(*low);
    if *first >= TOP_BIT && *high < TOP_BIT && *low < TOP_BIT && total >= HEADER {
        Some(total)
    } else {
        None
    }
}
