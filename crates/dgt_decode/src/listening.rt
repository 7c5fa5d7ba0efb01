//! Listeners, to which a decoder passes the events of a whole chunk.

ghost use Rattle.dgt_decode.specs.Feeding.{event_content};
ghost use Rattle.dgt_decode.specs.Grammar.{Placed, at_place};

use crate::event::Event;

/// Receives events, one after another.
///
/// Contracts see what a listener does with an event as a relation, `hears`, which each listener
/// states for itself.
pub trait Listener {
    // the listener before an event, the event with its place, and the listener after it; a closure
    // would need a `requires`, and a default would promise nothing
    ghost hears: { Self → Placed → Self → Type 0 };

    /// Receives an event. Its place is the number of bytes of the chunk up to and including the
    /// event's last one.
    fn hear(&mut self, place: usize, event: &Event<'_>)
        ensures { hears self.old (at_place place (event_content event.now)) self.new };
}
