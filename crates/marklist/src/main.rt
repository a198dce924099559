// Reads three word counts, an alphabet, a rule and a chapter from standard input, and prints the hits or the refusal
// (document 01, "The source's own example"). What the bytes mean and what is printed stands in the crate `report`.
#![tactic(auto)]

ghost use Rattle.std.specs.Prelude.{◌≡◌, ◌≤◌, length, IfOk};
ghost use Rattle.report.specs.Stages.{buffer_length};
ghost use Rattle.marklist.specs.InputReading.{InputStored, PartsStored, Printed};

use encoding::word_bytes::{WORD_BYTES, keep_words};
use report::input::{ALPHABET_KEPT, CHAPTER_KEPT, RULE_KEPT, kept_words, part_bytes};
use report::report;
use std::io::{self, Read, Stdin, Write};

// Zeros, as many as are read or written at once.
fn buffer() -> [u8; 4096]
    ensures { 4096 ≡ length result }
{
    [0; 4096]
}

// Reads the next `count` words, and keeps as many as the slice has room for. It asks for no byte behind them, and fails where
// not all are there.
fn read_words(input: &mut Stdin, count: u32, words: &mut [u32]) -> io::Result<()>
    ensures { IfOk result (λ _. InputStored count words.old words.new) }
{
    let all = count as usize;
    let mut seen: usize = 0;
    // No `for`: a turn goes on by as many words as the part has that it reads.
    while seen < all {
        let bytes = part_bytes(all - seen);
        let mut buffer = buffer();
        input.read_exact(&mut buffer[..bytes])?;
        keep_words(words, seen, &buffer[..bytes]);
        seen += bytes / WORD_BYTES;
    }
    Ok(())
}

// Reads the three counts, and then as many words of the alphabet, the rule and the chapter as they say. The counts stay beside the
// arrays, since no more words are kept than an array holds and a count may be any number.
fn read_parts(
    input: &mut Stdin,
    counts: &mut [u32; 3],
    alphabet: &mut [u32],
    rule: &mut [u32],
    chapter: &mut [u32],
) -> io::Result<()>
    ensures { IfOk result (λ _.
        PartsStored counts.old counts.new alphabet.old alphabet.new rule.old rule.new chapter.old chapter.new) }
{
    read_words(input, 3, counts)?;
    read_words(input, counts[0], alphabet)?;
    read_words(input, counts[1], rule)?;
    read_words(input, counts[2], chapter)
}

// Reads the input, writes what is to be printed of it, and answers how many bytes that is.
fn answer_input(input: &mut Stdin, out: &mut [u8]) -> usize
    requires { buffer_length ≤ length out.old }
    ensures { Printed out.old out.new result }
{
    let mut counts = [0u32; 3];
    let mut alphabet = [0u32; ALPHABET_KEPT];
    let mut rule = [0u32; RULE_KEPT];
    let mut chapter = [0u32; CHAPTER_KEPT];
    let read = read_parts(input, &mut counts, &mut alphabet, &mut rule, &mut chapter);
    report(
        read.is_ok(),
        &alphabet[..kept_words(counts[0], ALPHABET_KEPT)],
        &rule[..kept_words(counts[1], RULE_KEPT)],
        &chapter[..kept_words(counts[2], CHAPTER_KEPT)],
        out,
    )
}

// A failed write is passed over: whoever reads the lines sees that they are not whole.
fn main(rt: HostRuntime) {
    let mut out = buffer();
    let mut input = rt.stdin();
    let length = answer_input(&mut input, &mut out);
    let _ = rt.stdout().write_all(&out[..length]);
}
