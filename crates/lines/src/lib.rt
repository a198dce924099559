// Writers of the lines that `marklist` prints.
#![tactic(auto)]

ghost use Rattle.std.specs.Prelude.{◌≡◌, ◌++◌, ◌≤◌, length, get_or};
ghost use Rattle.words.specs.Limits.{nodes_most};
ghost use Rattle.words.specs.Chapter.{symbol_of};
ghost use Rattle.encoding.specs.ByteWriting.{BytesWritten};
ghost use Rattle.lines.specs.Line.{refused_line, head_line, hit_line, hit_lines};

use encoding::byte_writer::ByteWriter;
use syntax::postfix::subtree_span;
use words::word::SYMBOL_RANGE;

// The line `refused N`.
pub fn write_refused(out: &mut [u8], number: u32) -> usize
    ensures { BytesWritten 0 (refused_line number) out.old out.new result }
{
    let mut line = ByteWriter::new(out);
    line.write_text(b"refused ");
    line.write_field(number as usize, b'\n');
    line.next
}

// The head line: element, state and hit counts.
fn write_head(line: &mut ByteWriter, nodes: usize, states: usize, hits: usize)
    ensures same_reference { line.new.out.ghost_name ≡ line.old.out.ghost_name }
    ensures long { length line.new.out.now ≡ length line.old.out.now }
    ensures written { BytesWritten line.old.next (head_line nodes states hits) line.old.out.now line.new.out.now line.new.next }
{
    line.write_text(b"nodes ");
    line.write_field(nodes, b' ');
    line.write_text(b"states ");
    line.write_field(states, b' ');
    line.write_text(b"hits ");
    line.write_field(hits, b'\n');
}

// The symbol of a node; 0 where there is no such node.
fn symbol_of(chapter: &[u32], node: usize) -> usize
    ensures { result ≡ symbol_of (get_or chapter.now node 0) }
{
    chapter
        .get(node)
        .map_or(0, |word| (*word % SYMBOL_RANGE) as usize)
}

// The line of one hit: the element, its symbol and its subtree's element count.
fn write_hit(line: &mut ByteWriter, alphabet: &[u32], chapter: &[u32], hit: u32)
    requires { length chapter.now ≤ nodes_most }
    ensures same_reference { line.new.out.ghost_name ≡ line.old.out.ghost_name }
    ensures long { length line.new.out.now ≡ length line.old.out.now }
    ensures written { BytesWritten line.old.next (hit_line alphabet.now chapter.now hit) line.old.out.now line.new.out.now line.new.next }
{
    let node = hit as usize;
    let span = subtree_span(alphabet, chapter, node);
    let size = node + 1 - span.start;
    line.write_field(node, b' ');
    line.write_field(symbol_of(chapter, node), b' ');
    line.write_field(size, b'\n');
}

// The head line and the lines of all hits.
pub fn write_lines(
    out: &mut [u8],
    alphabet: &[u32],
    chapter: &[u32],
    states: usize,
    hits: &[u32],
) -> usize
    requires { length chapter.now ≤ nodes_most }
    ensures { BytesWritten 0
        (head_line (length chapter.now) states (length hits.now)
        ++ hit_lines alphabet.now chapter.now hits.now)
        out.old out.new result }
{
    let mut lines = ByteWriter::new(out);
    write_head(&mut lines, chapter.len(), states, hits.len());
    for hit in hits {
        write_hit(&mut lines, alphabet, chapter, *hit);
    }
    lines.next
}
