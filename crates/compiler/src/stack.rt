// The ports of the words that wait for their parent, the last on top.
ghost use Rattle.std.specs.Prelude.{◌≡◌, ◌+◌, ◌-◌, ◌≤◌, ◌<◌, length, take, drop, slice_set};
ghost use Rattle.words.specs.Limits.{expression_most};

use ports::states::{Entries, Port};
use words::limits::EXPRESSION_MOST;

// What stands where no word waits; nothing reads it. All its bits are 0, so that the array is cleared where it stands, and not made
// beside it and copied.
const NO_PORT: Port = Port {
    exit: 0,
    entries: Entries::Every,
};

// The first `height` ports are those of the words that wait. It is a type of its own beside the other stacks: they hold numbers, over
// zeros (nodes' `Roots`), by a `Model` (syntax's `Heights`) or many words each (forecast's `Pile`), and share no clause.
#[derive(Drop)]
pub(crate) struct Stack {
    ports: [Port; EXPRESSION_MOST],
    height: usize,
}

impl Stack {
    // No word waits.
    pub(crate) fn new() -> Stack
        ensures { (length result.ports ≡ expression_most) × (result.height ≡ 0) }
    {
        Stack {
            ports: [NO_PORT; EXPRESSION_MOST],
            height: 0,
        }
    }

    // The ports on top.
    pub(crate) fn top(&self, count: usize) -> &[Port]
        requires { (count ≤ self.now.height) × (self.now.height ≤ expression_most) }
        ensures { result.now ≡ take count (drop (self.now.height - count) self.now.ports) }
    {
        &self.ports[self.height - count..self.height]
    }

    // A word's port takes the place of its children's.
    pub(crate) fn replace(&mut self, count: usize, port: Port)
        requires { (count ≤ self.old.height) × (self.old.height < expression_most) }
        ensures ports { self.new.ports ≡ slice_set self.old.ports (self.old.height - count) port }
        ensures height { self.new.height ≡ self.old.height - count + 1 }
    {
        let base = self.height - count;
        self.ports[base] = port;
        self.height = base + 1;
    }
}
