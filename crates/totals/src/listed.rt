// The ancestors of a place, listed by their numbers in one pass, and the totals of nodes that are listed so.
ghost use Rattle.std.specs.Prelude.{◌≡◌, List, ◌++◌, map, ℕ, ◌+◌, ◌-◌, length};
ghost use Rattle.std.proofs.lemmas.List.Edits.{sets};
ghost use Rattle.words.specs.Lists.{list_from, written_over};
ghost use Rattle.operations.specs.Marks.{size_of, final_of, stored_set};
ghost use Rattle.operations.specs.Totals.{totals_of};
ghost use Rattle.totals.specs.Listed.{
  reach_past,
  number_at,
  Listable,
  NodeListable,
  Movable,
  NumbersCountable,
  ListedCountable,
};
ghost use Rattle.totals.specs.Place.{ancestors_of};
ghost use Rattle.totals.specs.TotalsIn.{totals_in};

use super::Totals;
use super::moves::add_totals;
use super::nodes::{hit_of, nodes_totals};
use alphabet::node_arity;
use sets::whole::count_cells;
use tables::head::{final_state, set_size};

// How far the loop is: how many roots behind node i, counted from the last, reach back to the one whose tree holds it, and how many
// ancestors are listed. The list is lent beside it: a struct that held the caller's slice would be no plainer for one loop.
#[derive(Drop)]
struct Listed {
    pub reach: usize,
    pub found: usize,
}

// Passes node j. A node that takes only roots behind the one whose tree holds the place is no ancestor; any other is one.
fn list_node(alphabet: &[u32], nodes: &[u32], j: usize, list: &mut [u32], listed: Listed) -> Listed
    requires { NodeListable alphabet.now nodes.now j (length list.old) listed.reach listed.found }
    ensures reach { result.reach ≡ reach_past alphabet.now nodes.now j listed.reach }
    ensures found { result.found ≡ listed.found + length (number_at alphabet.now nodes.now j listed.reach) }
    ensures list { list.new
        ≡ sets list.old listed.found (number_at alphabet.now nodes.now j listed.reach) }
{
    let children = node_arity(alphabet, nodes[j]);
    let reach = listed.reach;
    let found = listed.found;
    if children < reach {
        return Listed {
            reach: reach - children + 1,
            found,
        };
    }
    list[found] = j as u32;
    Listed {
        reach: 1,
        found: found + 1,
    }
}

// Writes the numbers of the ancestors of node i, nearest first, and answers how many there are.
pub fn list_ancestors(alphabet: &[u32], nodes: &[u32], i: usize, list: &mut [u32]) -> usize
    requires { Listable alphabet.now nodes.now i (length list.old) }
    ensures answer { result ≡ length (ancestors_of alphabet.now nodes.now i) }
    ensures list { list.new ≡ written_over (ancestors_of alphabet.now nodes.now i) list.old }
{
    let mut listed = Listed { reach: 1, found: 0 };
    for j in i + 1..nodes.len() {
        listed = list_node(alphabet, nodes, j, list, listed);
    }
    listed.found
}

// Moves the numbers from `from` on to those from `to` on.
pub fn move_numbers(list: &mut [u32], from: usize, to: usize)
    requires { Movable from to list.old }
    ensures { list.new ≡ map (λ j. j - from + to) list.old }
{
    for number in list.iter_mut() {
        *number = (*number as usize - from + to) as u32;
    }
}

// The totals of the nodes with these numbers, where a set has `size` words and `last` is the table's final state. Their sets stand
// apart, so cells are counted set by set; `nodes_totals` counts those of sets that stand together in one pass, which is faster.
fn numbers_totals(marks: &[u32], size: usize, last: usize, list: &[u32]) -> Totals
    requires { NumbersCountable (length marks.now) size list.now }
    ensures { (table : List ℕ) → last ≡ final_of table
        → totals_in result ≡ totals_of table (map (stored_set size marks.now) list.now) }
{
    let mut hits: usize = 0;
    let mut cells: usize = 0;
    for number in list {
        let at = *number as usize * size;
        let set = &marks[at..at + size];
        hits += hit_of(set, last);
        cells += count_cells(set);
    }
    Totals {
        elements: list.len() as u32,
        hits: hits as u32,
        cells: cells as u32,
    }
}

// The totals of the nodes from `from` to before `to` and of those with the numbers of the list. The promise is said of both numbers,
// so that no range stands for them.
pub fn listed_totals(table: &[u32], marks: &[u32], from: usize, to: usize, list: &[u32]) -> Totals
    requires { ListedCountable (length marks.now) (size_of table.now) from to list.now }
    ensures { totals_in result
        ≡ totals_of table.now
        (list_from (stored_set (size_of table.now) marks.now) from (to - from)
        ++ map (stored_set (size_of table.now) marks.now) list.now) }
{
    let run = nodes_totals(table, marks, from, to);
    let size = set_size(table);
    let last = final_state(table);
    let listed = numbers_totals(marks, size, last, list);
    add_totals(run, listed)
}
