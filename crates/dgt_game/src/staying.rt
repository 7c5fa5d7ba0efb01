//! Which half-moves of a line stay for good, though they are taken back.

ghost use Rattle.std.specs.Prelude.{◌≡◌};
ghost use Rattle.dgt_game.specs.Staying.{after_back, after_step, staying_after};

use crate::event::Event;

// From here on, steps aren't counted.
const MANY: u8 = 255;

/// What is known of the steps of a line: a `Made`, `Unseen` or `Gap` is one, and so is its
/// beginning.
#[derive(Clone, Copy, Debug, PartialEq, Eq)]
pub(crate) struct Staying {
    /// How many of the last steps don't stay, if they are taken back: two at most.
    pub(crate) loose: u8,
    /// How many of the last steps are in no other line that stays.
    pub(crate) own: u8,
    /// Whether something was taken back since the last step, and whether some of that stays.
    pub(crate) is_back: bool,
    pub(crate) stays: bool,
}

/// Before a line begins.
pub(crate) const NONE_STAYS: Staying = Staying {
    loose: 0,
    own: 0,
    is_back: false,
    stays: false,
};

impl Staying {
    /// After an event. If it takes something back: whether all of the line stays.
    pub(crate) fn after(self, event: &Event, is_whole: bool) -> Self
        ensures { result ≡ staying_after self event.now is_whole }
    {
        match event {
            Event::Begun(_, _) => NONE_STAYS.after_step(),
            Event::Made(_) | Event::Unseen(_) | Event::Gap(_, _) => self.after_step(),
            Event::Back(_, _) => self.after_back(is_whole),
            Event::Ended(_) | Event::Lost(_) | Event::Found => self,
        }
    }

    pub(crate) fn after_step(self) -> Self
        ensures { result ≡ after_step self }
    {
        Staying {
            loose: self.loose.saturating_add(1).min(2),
            own: self.own.saturating_add(1),
            is_back: false,
            stays: false,
        }
    }

    pub(crate) fn after_back(self, is_whole: bool) -> Self
        ensures { result ≡ after_back self is_whole }
    {
        if is_whole || self.loose == 0 {
            return Staying {
                loose: 0,
                own: 0,
                is_back: true,
                stays: self.stays || self.own > 0,
            };
        }
        Staying {
            loose: self.loose - 1,
            own: if self.own < MANY {
                self.own.saturating_sub(1)
            } else {
                MANY
            },
            is_back: true,
            stays: self.stays,
        }
    }
}
