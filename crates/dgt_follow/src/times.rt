//! Times in milliseconds that may be unknown, or too large for a `u64`.

ghost use Rattle.std.specs.Prelude.{◌≡◌, ℕ, min};
ghost use Rattle.dgt_follow.specs.Pace.{counted, is_before, later, time_after};

/// The later of two times, as far as they are known.
pub(crate) fn later_of(first: Option<u64>, second: Option<u64>) -> Option<u64>
    ensures { result ≡ later first second }
{
    match (first, second) {
        (None, second) => second,
        (first, None) => first,
        (Some(first), Some(second)) => Some(first.max(second)),
    }
}

/// This duration after a time, or 0 if the time is unknown. `None` if that is too large for a
/// `u64`.
pub(crate) fn due_after(time: Option<u64>, duration: u64) -> Option<u64>
    ensures { result ≡ counted (time_after time duration) }
{
    match time {
        None => Some(0),
        Some(time) => time.checked_add(duration),
    }
}

/// The earlier of two times, if `None` is later than all others.
pub(crate) fn earlier(first: Option<u64>, second: Option<u64>) -> Option<u64>
    ensures { (a b : ℕ) → first ≡ counted a → second ≡ counted b → result ≡ counted (min a b) }
{
    match (first, second) {
        (None, second) => second,
        (first, None) => first,
        (Some(first), Some(second)) => Some(first.min(second)),
    }
}

/// Whether a time is before another one that is known.
pub(crate) fn precedes(now: u64, time: Option<u64>) -> bool
    ensures { result ≡ is_before now time }
{
    match time {
        None => false,
        Some(time) => now < time,
    }
}
