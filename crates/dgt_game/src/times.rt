//! How long positions rest before they report something, in milliseconds, and the other limits.

/// A half-move that was shown. Pieces slide over squares, and stand there for less.
pub(crate) const SETTLE: u64 = 300;

/// Half-moves of which only the last position was shown. A hand in between would look like them.
pub(crate) const JUMP: u64 = 1000;

/// A rook's move that may be the first half of a castling.
pub(crate) const CASTLE: u64 = 2000;

/// Half-moves that replace others than the last one.
pub(crate) const REPLACE: u64 = 3000;

/// A half-move while the clock of the player who made it still runs.
pub(crate) const PRESS: u64 = 3000;

/// Half-moves faster than hands make them. A bump of the table looks like that.
pub(crate) const AT_ONCE: u64 = 10_000;

/// The least time that a hand needs for a half-move.
pub(crate) const HANDS: u64 = 100;

/// A position that no half-moves lead to begins a line, if the board was away or set up before.
pub(crate) const NEW: u64 = 5000;

/// The same, if it wasn't.
pub(crate) const NEW_STILL: u64 = 60_000;

/// The same, if there is no line yet.
pub(crate) const FIRST: u64 = 1000;

/// A position that nobody holds a piece of rests that long even in blitz.
pub(crate) const GLANCE: u64 = 320;

/// Kings on the squares in the centre that give a result.
pub(crate) const KINGS: u64 = 1000;

/// How long after a mate a line is still followed, in case it wasn't one.
pub(crate) const FINAL: u64 = 10_000;

/// Half-moves stay for good, though they are taken back later.
pub(crate) const STAYS: u64 = 30_000;

/// A line begins from an unexplained position once more half-moves than this follow it.
pub(crate) const SHADOW: u8 = 3;

/// How far back a half-move may replace those that were reported.
pub(crate) const NEAR: usize = 4;

/// As many half-moves that weren't reported are reported at the next one, however fast they are.
pub(crate) const LONG: u8 = 8;

/// After a result and a doubt, a position is far from the last one if more squares than these
/// differ. An analysis mostly stays nearer.
pub(crate) const FAR: u32 = 24;

/// The states of the line that are kept: it can't be taken back further.
pub(crate) const KEPT: usize = 16;

/// The nodes that were shown since, and aren't reported.
pub(crate) const SEEN: usize = 24;

/// From how many of the nodes that were seen last more than two half-moves are looked for.
pub(crate) const ROOTS: usize = 8;
