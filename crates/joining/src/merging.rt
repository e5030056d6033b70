// A joined node: the first text's entries, then those of the second that are new; a joined process (specs/Joins.antt).
ghost use Rattle.std.specs.Prelude.{◌≡◌, ◌≤◌, length};
ghost use Rattle.text.specs.vocabulary.Sizes.{NODES};
ghost use Rattle.joining.specs.Joins.{prime_joined};
ghost use Rattle.joining.specs.vocabulary.Directories.{ENTRIES, IsHeld, OfBoth};
ghost use Rattle.joining.specs.vocabulary.Merged.{in_codes, AddsNew, MergesNode};

use crate::directories::{codes_end, has_node, prime_of};
use crate::{CODES, CODES_AT, Codes, NODE_WORDS};
use text::call_line::is_named;

// The codes as they are. Ruled out: the last one left out; a code twice.
fn copy_codes(codes: &[u32]) -> Codes
    requires { length codes.now ≤ ENTRIES }
    ensures { result ≡ in_codes codes.now }
{
    let mut copied = [0u32; CODES];
    // one by one, as the 0s after the codes are proved
    for i in 0..codes.len() {
        copied[i] = codes[i];
    }
    Codes {
        count: codes.len(),
        codes: copied,
    }
}

// The codes with the others after them, each that is there already left out.
// Ruled out: an equal entry of the second text written twice; an entry left out that is not there.
fn add_new(c: Codes, others: &[u32]) -> Codes
    requires { (c.count ≤ ENTRIES) × (length others.now ≤ ENTRIES) }
    ensures { AddsNew c others.now result }
{
    let mut codes = c.codes;
    let mut count = c.count;
    for i in 0..others.len() {
        let code = others[i];
        if !is_named(&codes[0..count], code) {
            codes[count] = code;
            count += 1;
        }
    }
    Codes { count, codes }
}

// The codes of a joined node. Ruled out: the second text's entries first; the equal entries of a node of the second
// text alone left out.
pub fn merge_node(first: &[u32], second: &[u32], n: u32) -> Codes
    requires { IsHeld first.now × IsHeld second.now × (n ≤ NODES) }
    ensures { MergesNode first.now second.now n result }
{
    let at = NODE_WORDS * (n as usize) + CODES_AT;
    let end = codes_end(second, n);
    if has_node(first, n) {
        let own = codes_end(first, n);
        return add_new(copy_codes(&first[at..own]), &second[at..end]);
    }
    copy_codes(&second[at..end])
}

// The prime node of a joined process: the first text's, or the second's; 0 where neither gives one.
// Ruled out: the second text's prime node where the first gives one.
pub fn merge_process(first: &[u32], second: &[u32], p: u32) -> u32
    requires { IsHeld first.now × IsHeld second.now }
    ensures { OfBoth first.now second.now (λ fs gs. result ≡ prime_joined fs gs p) }
{
    let n = prime_of(first, p);
    if 0 < n {
        return n;
    }
    prime_of(second, p)
}
