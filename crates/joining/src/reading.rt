// A line of a text, read into its directory (specs/Feeding.antt).
ghost use Rattle.std.specs.Prelude.{◌+◌, ◌≤◌, length};
ghost use Rattle.text.specs.Opening.{node_form, process_form};
ghost use Rattle.text.specs.vocabulary.Openings.{entries_here};
ghost use Rattle.joining.specs.vocabulary.Directories.{ENTRIES};
ghost use Rattle.joining.specs.vocabulary.Reading.{EntriesFit, StoresCodes, Takes, Stores, TakesLine, StoresLine};
ghost use Rattle.joining.specs.vocabulary.Reading.{HeldGiven, ReadsLine};

use crate::directories::entry_code;
use crate::{CODES_AT, NODE_WORDS, PRIMES};
use calls::Refusal;
use text::Given;
use text::opening_lines::entry_at;
use text::opening_text::{MOST_ENTRIES, pass_line};
use text::patterns::read_form;

// Stores the codes of the entries from a position of a line on; how many they are.
fn store_entries(words: &mut [u32], at: usize, line: &[u8], from: usize) -> usize
    requires { (at + ENTRIES ≤ length words.old) × EntriesFit line.now from }
    ensures { StoresCodes words.old at line.now from words.new result }
{
    let mut i = from;
    for n in 0..MOST_ENTRIES {
        let Some((entry, next)) = entry_at(line, i) else {
            return n;
        };
        words[at + n] = entry_code(entry);
        i = next;
    }
    MOST_ENTRIES
}

// Stores a node: it is given, and has the entries from a position of a line on.
fn store_node(words: &mut [u32], n: u32, line: &[u8], from: usize)
    requires { Takes words.old (node_form n (entries_here line.now from)) }
    ensures { Stores words.old (node_form n (entries_here line.now from)) words.new }
{
    let at = NODE_WORDS * (n as usize);
    let count = store_entries(words, at + CODES_AT, line, from);
    words[at] = 1;
    words[at + 1] = count as u32;
}

// Stores a process: its prime node.
fn store_process(words: &mut [u32], p: u32, n: u32)
    requires { Takes words.old (process_form p n) }
    ensures { Stores words.old (process_form p n) words.new }
{
    words[PRIMES + p as usize] = n;
}

// Stores the form of a line that the first pass takes.
fn store_line(words: &mut [u32], line: &[u8])
    requires { TakesLine words.old line.now }
    ensures { StoresLine words.old line.now words.new }
{
    let f = read_form(line, 0, b"(node #");
    if f.good {
        let from = f.next;
        return store_node(words, f.c, line, from);
    }
    let p = read_form(line, 0, b"(process # #)\n");
    store_process(words, p.b, p.c)
}

// What a line does after the forms that are held: it is taken and held too, ends the text, or is refused.
// Ruled out: a line that is refused changes what is held; a node's second form takes the place of the first.
pub fn read_text_line(
    words: &mut [u32],
    line: &[u8],
    given: Given,
) -> Result<Option<Given>, Refusal>
    requires { HeldGiven words.old given }
    ensures { ReadsLine words.old line.now given result words.new }
{
    let step = pass_line(line, given)?;
    if step.is_some() {
        store_line(words, line);
    }
    Ok(step)
}
