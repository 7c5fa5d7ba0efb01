//! The default follower of a handle.

ghost use Rattle.std.specs.Prelude.{◌≡◌};
ghost use Rattle.dgt_c.specs.PlainFollower.{plain_follower};

use dgt_follow::Follower;

/// A follower with a period of ten seconds and a patience of six heartbeats.
pub(crate) fn default_follower() -> Follower
    ensures { result ≡ plain_follower }
{
    Follower::new(10_000, 6)
}
