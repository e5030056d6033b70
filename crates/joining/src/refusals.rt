// What is refused of two directories: 5, 6 and 20 (specs/Joins.antt).
ghost use Rattle.std.specs.Prelude.{◌≡◌, ◌≤◌};
ghost use Rattle.text.specs.vocabulary.Sizes.{NODES};
ghost use Rattle.calls.specs.vocabulary.Performs.{refusal_in};
ghost use Rattle.joining.specs.Joins.{name_missing, node_crowded, primes_differ, join_refusal};
ghost use Rattle.joining.specs.vocabulary.Directories.{IsHeld, OfBoth};
ghost use Rattle.joining.specs.vocabulary.Listed.{ListsEntry, ListsCodes, ListsNodes, ListsPrimes, ListsText};

use crate::directories::{codes_end, entry_of, has_node, prime_of};
use crate::merging::merge_node;
use crate::{CODES_AT, NODE_WORDS};
use calls::Refusal;
use rows::codes::{AN_OPERATION, LAST_NODE, LAST_PROCESS};
use text::Entry;
use text::opening_text::MOST_ENTRIES;

// ---- 5: a name that neither text gives
// Whether the process or node that an entry names is given by either text.
fn is_listed(first: &[u32], second: &[u32], e: Entry) -> bool
    requires { IsHeld first.now × IsHeld second.now }
    ensures { ListsEntry first.now second.now e result }
{
    if e.kind == AN_OPERATION {
        return (0 < prime_of(first, e.object)) | (0 < prime_of(second, e.object));
    }
    has_node(first, e.object) | has_node(second, e.object)
}

// Whether all that entries name is given by either text.
fn are_listed(first: &[u32], second: &[u32], codes: &[u32]) -> bool
    requires { IsHeld first.now × IsHeld second.now }
    ensures { ListsCodes first.now second.now codes.now result }
{
    for i in 0..codes.len() {
        let e = entry_of(codes[i]);
        if !is_listed(first, second, e) {
            return false;
        }
    }
    true
}

// Whether all that the entries of a text's nodes name is given by either text.
fn nodes_listed(first: &[u32], second: &[u32], words: &[u32]) -> bool
    requires { IsHeld first.now × IsHeld second.now × IsHeld words.now }
    ensures { ListsNodes first.now second.now words.now result }
{
    for n in 1..=LAST_NODE {
        let at = NODE_WORDS * (n as usize) + CODES_AT;
        let end = codes_end(words, n);
        if !are_listed(first, second, &words[at..end]) {
            return false;
        }
    }
    true
}

// Whether the prime node of each process of a text is given by either text.
fn primes_listed(first: &[u32], second: &[u32], words: &[u32]) -> bool
    requires { IsHeld first.now × IsHeld second.now × IsHeld words.now }
    ensures { ListsPrimes first.now second.now words.now result }
{
    for p in 1..=LAST_PROCESS {
        let n = prime_of(words, p);
        let given = has_node(first, n) | has_node(second, n);
        if (0 < n) & !given {
            return false;
        }
    }
    true
}

// Whether all that a text names is given by either text.
fn text_listed(first: &[u32], second: &[u32], words: &[u32]) -> bool
    requires { IsHeld first.now × IsHeld second.now × IsHeld words.now }
    ensures { ListsText first.now second.now words.now result }
{
    nodes_listed(first, second, words) & primes_listed(first, second, words)
}

// ---- 6: a joined node with too many entries
fn is_crowded(first: &[u32], second: &[u32]) -> bool
    requires { IsHeld first.now × IsHeld second.now }
    ensures { OfBoth first.now second.now (λ fs gs. result ≡ node_crowded fs gs) }
{
    for n in 1..=LAST_NODE {
        let c = merge_node(first, second, n);
        if MOST_ENTRIES < c.count {
            return true;
        }
    }
    false
}

// ---- 20: two prime nodes
fn primes_differ(first: &[u32], second: &[u32]) -> bool
    requires { IsHeld first.now × IsHeld second.now }
    ensures { OfBoth first.now second.now (λ fs gs. result ≡ primes_differ fs gs) }
{
    for p in 1..=LAST_PROCESS {
        let a = prime_of(first, p);
        let b = prime_of(second, p);
        if (0 < a) & ((0 < b) & (a != b)) {
            return true;
        }
    }
    false
}

// ---- the lowest
// The refusal of two texts that were read. Ruled out: 20 before 6; 5 for a name that the other text gives.
pub fn refusal_of(first: &[u32], second: &[u32]) -> Result<(), Refusal>
    requires { IsHeld first.now × IsHeld second.now }
    ensures { OfBoth first.now second.now (λ fs gs. refusal_in result ≡ join_refusal fs gs) }
{
    let listed = text_listed(first, second, first) & text_listed(first, second, second);
    if !listed {
        return Err(Refusal::NotListed);
    }
    if is_crowded(first, second) {
        return Err(Refusal::TooMany);
    }
    if primes_differ(first, second) {
        return Err(Refusal::PrimesDiffer);
    }
    Ok(())
}
