use dgt_command::Command;
use dgt_link::{Act, World};

/// The host requests updates and a dump, and all is delivered. Returns whether the host's
/// picture is the board's position then.
pub fn follow(world: &mut World) -> bool {
    world.run(&[Act::Host(Command::UpdateBoard), Act::Host(Command::Dump)]);
    world.settle();
    world.host().picture() == Some(world.board().position())
}
