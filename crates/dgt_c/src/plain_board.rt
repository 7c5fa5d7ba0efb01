//! The default board of a handle.

ghost use Rattle.std.specs.Prelude.{◌≡◌};
ghost use Rattle.dgt_c.specs.PlainBoard.{plain_board};

use dgt_board::{Board, Identity, simulated_clock};
use dgt_values::Position;

/// The board of the program `dgt` in the initial position of a game.
pub(crate) fn board_of_program() -> Board
    ensures { result ≡ plain_board }
{
    Board::new(Position::start(), simulated_clock(), Identity::simulated())
}
