// A rule word whose own transitions are written.
ghost use Rattle.std.specs.Prelude.{◌<◌, ◌≤◌, length};
ghost use Rattle.words.specs.Limits.{constants_most, rank_most};
ghost use Rattle.ports.specs.Ports.{exit_range, EachOnce};

use ports::states::Port;

// The alphabet's constants, the ports of the word's children, and its exit.
#[derive(Clone, Copy)]
pub struct RuleWord<'a> {
    pub constants: &'a [u32],
    pub ports: &'a [Port],
    pub exit: u32,
    pub ghost once: { EachOnce constants.now },
    pub ghost few: { length constants.now ≤ constants_most },
    pub ghost children: { length ports.now ≤ rank_most },
    pub ghost low: { exit < exit_range },
}
