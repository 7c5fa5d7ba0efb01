use dgt_chess::State;
use dgt_values::Position;

/// Makes the legal move that leads to the pieces on a board. Returns whether there is one.
pub fn recognise(state: &mut State, picture: &Position) -> bool {
    let Some(one) = state.move_to(picture) else {
        return false;
    };
    let Ok(next) = state.play(one) else {
        return false;
    };
    *state = next;
    true
}
