//! Which changes a board reports by itself.

/// Which changes a board reports by itself. A new board is idle.
#[derive(Clone, Copy, Debug, PartialEq, Eq)]
pub enum Mode {
    /// None.
    Idle,
    /// Each square that differs from what was reported, and each reading of the clock.
    Update,
    /// Each square that differs from what was reported.
    UpdateBoard,
    /// Each square, and the clock, if it differs from what was reported.
    UpdateNice,
}
