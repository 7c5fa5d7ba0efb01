use dgt_decode::Event;
use dgt_lines::{RunFault, Sink, flush, write_event};

/// Prints the line of an event, such as `00000005 field e4 P`.
pub fn print<W: Sink>(to: &mut W, offset: u64, event: &Event<'_>) -> Result<(), RunFault> {
    write_event(to, offset, event)?;
    flush(to)
}
