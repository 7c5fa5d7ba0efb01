//! The kinds of replies that a host awaits.

/// A kind of reply that a host awaits after a request, and that a board owes after one. Other
/// replies, such as the clock's, have no kind.
///
/// The default fills the unused places of a list of kinds, and has no meaning.
#[derive(Clone, Copy, Debug, Default, PartialEq, Eq)]
pub enum Kind {
    #[default]
    Dump,
    Serial,
    Trademark,
    Version,
    Battery,
    LongSerial,
}
