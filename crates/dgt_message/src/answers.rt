//! Which request a message answers.

ghost use Rattle.std.specs.Prelude.{◌≡◌};
ghost use Rattle.dgt_message.specs.Content.{content, answered_kind};

use crate::message::Message;
use dgt_values::Kind;

/// The kind of a message, if it answers a request of a kind.
pub fn kind_of(message: &Message<'_>) -> Option<Kind>
    ensures { result ≡ answered_kind (content message.now) }
{
    match message {
        Message::Dump(_) => Some(Kind::Dump),
        Message::Serial(_) => Some(Kind::Serial),
        Message::Trademark(_) => Some(Kind::Trademark),
        Message::Version { .. } => Some(Kind::Version),
        Message::Battery(_) => Some(Kind::Battery),
        Message::LongSerial(_) => Some(Kind::LongSerial),
        _ => None,
    }
}
