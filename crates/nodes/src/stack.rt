// The stack of roots in an array, the last root on top. It begins with zeros, so that there are always as many words to read at
// its top as a node can have children. A node takes its children from the top and is put in their place, which is one store.
ghost use Rattle.std.specs.Prelude.{◌≡◌, reverse, ◌+◌, ◌-◌, drop, length, set, take};
ghost use Rattle.words.specs.Postfix.{roots_of};
ghost use Rattle.nodes.specs.Nodes.{Held, Pushable, Readable, Stackable, stack_base, stack_length};

use alphabet::node_arity;
use words::limits::{NODES_MOST, RANK_MOST};

// The zeros at the bottom.
pub(crate) const STACK_BASE: usize = RANK_MOST;

// The words of the array.
pub const STACK_LENGTH: usize = STACK_BASE + NODES_MOST;

// Puts a node on the stack in the place of its children, whose number is given, and answers the stack's height. The array may be
// shorter than STACK_LENGTH, which that of `Roots` may not.
pub fn push_node(stack: &mut [u32], height: usize, children: usize, node: usize) -> usize
    requires { Pushable stack.old height children node }
    ensures answer { result ≡ height - children + 1 }
    ensures stack { stack.new ≡ set stack.old (height - children) node }
{
    let below = height - children;
    stack[below] = node as u32;
    below + 1
}

// The stack: the first `height` words of the array.
#[derive(Drop)]
pub struct Roots {
    pub nodes: [u32; STACK_LENGTH],
    pub height: usize,
    pub ghost long: { length nodes ≡ stack_length },
}

impl Roots {
    // Puts a node on the stack in the place of its children, whose number is given.
    pub fn push(&mut self, children: usize, node: usize)
        requires { Pushable self.old.nodes self.old.height children node }
        ensures height { self.new.height ≡ self.old.height - children + 1 }
        ensures nodes { self.new.nodes ≡ set self.old.nodes (self.old.height - children) node }
    {
        self.height = push_node(&mut self.nodes, self.height, children, node);
    }

    // The words on top, as many as a node can have children.
    pub fn top(&self) -> &[u32]
        requires { Readable self.now.height }
        ensures { result.now ≡ take stack_base (drop (self.now.height - stack_base) self.now.nodes) }
    {
        &self.nodes[self.height - STACK_BASE..self.height]
    }
}

// Puts the roots of the trees that the first `count` nodes make on the stack.
pub fn stack_nodes(alphabet: &[u32], nodes: &[u32], count: usize, roots: &mut Roots)
    requires { Stackable alphabet.now nodes.now count roots.old.nodes }
    ensures { Held roots.new.nodes roots.new.height (reverse (roots_of alphabet.now nodes.now count)) }
{
    roots.height = STACK_BASE;
    for i in 0..count {
        let children = node_arity(alphabet, nodes[i]);
        roots.push(children, i);
    }
}
