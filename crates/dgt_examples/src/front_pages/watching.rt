use dgt_game::{Event, Observation, Recogniser, Sight};
use dgt_values::Position;

/// Whether a game begins once this position was shown and confirmed.
pub fn begins(recogniser: &mut Recogniser, now: u64, picture: Position) -> bool {
    let seen = Observation {
        at: now,
        sight: Sight::Sure(picture),
        is_confirmed: true,
        running: None,
    };
    if recogniser.see(&seen).is_err() {
        return false;
    }
    matches!(recogniser.due(now), Some(Event::Begun(_, _)))
}
