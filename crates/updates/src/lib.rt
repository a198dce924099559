// The marks of a tree brought up to date, below Run and Exchange: a run of nodes is recomputed, and then each node above it that
// this changes.
#![tactic(auto)]

ghost use Rattle.std.specs.Prelude.{◌≡◌};
ghost use Rattle.nodes.specs.Marking.{empty_memo};
ghost use Rattle.updates.specs.Updating.{updated_from, Updatable};

use closures::{KeptClosures, ROWS_LENGTH, ROWS_MOST};
use index::{INDEX_LENGTH, Indexed, write_index};
use memo::{Memo, PLACES_MOST, SLOTS_MOST};
use nodes::marking::{Marking, Tree, mark_nodes};
use nodes::stack::{Roots, STACK_LENGTH, stack_nodes};
use propagation::propagate;
use words::limits::STATES_MOST;

// A memo of zeros, which remembers nothing. It is made by a function of its own: inside the literal of what is kept from node
// to node the compiler makes it twice, for 28,912 bytes more of stack.
fn nothing_remembered() -> Memo
    ensures { result ≡ empty_memo }
{
    Memo {
        keys: [0u64; SLOTS_MOST],
        known: [0u32; SLOTS_MOST],
        places: [0u32; PLACES_MOST],
        closures: KeptClosures {
            owners: [0u32; ROWS_MOST],
            rows: [0u32; ROWS_LENGTH],
        },
        pending: [0u32; STATES_MOST],
    }
}

// Recomputes the nodes from `start` up to `root`, over a stack with the roots of the nodes before. Then node `root` is recomputed,
// and its ancestors as far as words change; where `root` is the number of the nodes there is none. Answers how many nodes were
// recomputed. All arrays that this takes are made here and are zero at first.
pub fn update_marks<'a>(
    alphabet: &'a [u32],
    table: &'a [u32],
    nodes: &'a [u32],
    start: usize,
    root: usize,
    marks: &mut [u32],
) -> usize
    requires { Updatable alphabet.now table.now nodes.now start root marks.old }
    ensures { (marks.new, result)
        ≡ updated_from alphabet.now table.now nodes.now start root marks.old }
{
    let mut index = [0u32; INDEX_LENGTH];
    write_index(table, &mut index);
    let tree = Tree {
        alphabet,
        indexed: Indexed {
            table,
            index: &index,
        },
        nodes,
    };
    let mut marking = Marking {
        roots: Roots {
            nodes: [0u32; STACK_LENGTH],
            height: 0,
        },
        memo: nothing_remembered(),
    };
    stack_nodes(alphabet, nodes, start, &mut marking.roots);
    mark_nodes(tree, start, root, marks, &mut marking);
    let count = root - start;
    propagate(tree, root, marks, &mut marking, count)
}
