// A directory: the forms of a text in words, an entry in one of them (specs/vocabulary/Directories.antt).
ghost use Rattle.std.specs.Prelude.{◌≡◌, List, map, ◌≤◌};
ghost use Rattle.text.specs.Opening.{Form, prime_of};
ghost use Rattle.text.specs.vocabulary.Sizes.{NODES};
ghost use Rattle.joining.specs.Joins.{node_in, entries_of};
ghost use Rattle.joining.specs.vocabulary.Directories.{EntryFits, entry_code, entry_of, IsHeld, Held, CodesEnd};

use crate::{CODES_AT, NODE_WORDS, PRIMES};
use rows::codes::{LAST_NODE, LAST_PROCESS};
use text::Entry;

// ---- an entry in a word
// The code of an entry. Ruled out: one code for an operation and a subdirectory; one for two operations.
pub fn entry_code(e: Entry) -> u32
    requires { EntryFits e }
    ensures { result ≡ entry_code e }
{
    ((e.object * 256 + e.operation) * 8 + e.rights) * 4 + e.kind
}

// The entry of a code. Ruled out: the rights of another; an operation's number cut to seven bits.
pub fn entry_of(c: u32) -> Entry
    ensures { result ≡ entry_of c }
{
    Entry {
        kind: c % 4,
        object: c / 8192,
        operation: c / 32 % 256,
        rights: c / 4 % 8,
    }
}

// ---- what is held of a node, of a process
// Whether a form gives a node; no form gives one out of range.
// Ruled out: no for a node without entries; yes for node 33.
pub fn has_node(words: &[u32], n: u32) -> bool
    requires { IsHeld words.now }
    ensures { (fs : List Form) → Held words.now fs → result ≡ node_in fs n }
{
    if LAST_NODE < n {
        return false;
    }
    let at = NODE_WORDS * (n as usize);
    0 < words[at]
}

// The position after the codes of a node's entries. Ruled out: the position of the last; one for every node.
pub fn codes_end(words: &[u32], n: u32) -> usize
    requires { IsHeld words.now × (n ≤ NODES) }
    ensures { CodesEnd words.now n result }
{
    let at = NODE_WORDS * (n as usize);
    at + CODES_AT + words[at + 1] as usize
}

// The prime node of a process, 0 for none; a process out of range has none.
// Ruled out: the prime node of the next process.
pub fn prime_of(words: &[u32], p: u32) -> u32
    requires { IsHeld words.now }
    ensures { (fs : List Form) → Held words.now fs → result ≡ prime_of fs p }
{
    if LAST_PROCESS < p {
        return 0;
    }
    words[PRIMES + p as usize]
}
