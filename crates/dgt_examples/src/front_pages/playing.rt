use dgt_command::MAX_WORD;
use dgt_link::{Outcome, World};
use dgt_script::{LineFault, read_act};

/// Does the act of a line of a script, such as `change e4 P`.
pub fn play(world: &mut World, line: &[u8]) -> Result<Outcome, LineFault> {
    let mut store = [0; MAX_WORD];
    let act = read_act(line, &mut store)?;
    Ok(world.step(act))
}
