//! The lines of outcomes.

ghost use Rattle.std.specs.Prelude.{◌≡◌};
ghost use Rattle.dgt_script.specs.Outcomes.{outcome_line};

use dgt_link::Outcome;

/// The line of the outcome of an act.
pub fn outcome_text(outcome: Outcome) -> &'static [u8]
    ensures { result.now ≡ outcome_line outcome }
{
    match outcome {
        Outcome::Done => b"done\n",
        Outcome::Nothing => b"nothing\n",
        Outcome::NoRoom => b"noroom\n",
        Outcome::Busy => b"busy\n",
        Outcome::TooMany => b"toomany\n",
    }
}
