// The joined text, line by line: a slot for each node, each process and `(open)` (specs/Written.antt).
ghost use Rattle.std.specs.Prelude.{◌≡◌, [], ℕ, ◌+◌, ◌*◌, ◌≤◌, ◌<◌};
ghost use Rattle.rows.specs.Lists.{bytes};
ghost use Rattle.rows.specs.vocabulary.Sizes.{PROCESSES};
ghost use Rattle.text.specs.Opening.{process_form};
ghost use Rattle.text.specs.vocabulary.Sizes.{NODES, REPLY};
ghost use Rattle.text.specs.vocabulary.Replies.{in_reply, Puts};
ghost use Rattle.joining.specs.Written.{operation_text, subdirectory_text, entry_text, form_text};
ghost use Rattle.joining.specs.vocabulary.Directories.{EntryFits, IsHeld};
ghost use Rattle.joining.specs.vocabulary.Lines.{SLOTS, HEAD, ENTRY, ENTRY-ROOM, CodesFit, codes_in, codes_text};
ghost use Rattle.joining.specs.vocabulary.Lines.{node_of, Accepted, LineOf, node_slot, process_slot, slot_text};
ghost use Rattle.joining.specs.vocabulary.Lines.{WritesSlots};

use crate::directories::{entry_of, has_node};
use crate::merging::{merge_node, merge_process};
use crate::{Codes, SLOTS, Written};
use rows::codes::AN_OPERATION;
use text::replies::{hand_out, put_text, put_value};
use text::{Entry, REPLY, Reply};

// the slots of nodes, and of nodes and processes
const NODE_SLOTS: usize = 32;

const FORM_SLOTS: usize = 96;

// ---- an entry
// A function for each text that is printed, here and below: the words and the numbers differ.
// `as` for the numbers, as in text::replies.
// ` (op m o r)`.
fn put_operation(o: &mut [u8; REPLY], at: usize, e: Entry) -> usize
    requires { EntryFits e × (at + ENTRY-ROOM ≤ REPLY) }
    ensures put { Puts o.old at (operation_text e) o.new result }
    ensures grown { result ≤ at + ENTRY }
{
    let begun = put_text(o, at, b" (op");
    let manager = put_value(o, begun, e.object as u64);
    let operation = put_value(o, manager, e.operation as u64);
    let rights = put_value(o, operation, e.rights as u64);
    put_text(o, rights, b")")
}

// ` (dir n r)`.
fn put_subdirectory(o: &mut [u8; REPLY], at: usize, e: Entry) -> usize
    requires { EntryFits e × (at + ENTRY-ROOM ≤ REPLY) }
    ensures put { Puts o.old at (subdirectory_text e) o.new result }
    ensures grown { result ≤ at + ENTRY }
{
    let begun = put_text(o, at, b" (dir");
    let node = put_value(o, begun, e.object as u64);
    let rights = put_value(o, node, e.rights as u64);
    put_text(o, rights, b")")
}

fn put_entry(o: &mut [u8; REPLY], at: usize, e: Entry) -> usize
    requires { EntryFits e × (at + ENTRY-ROOM ≤ REPLY) }
    ensures put { Puts o.old at (entry_text e) o.new result }
    ensures grown { result ≤ at + ENTRY }
{
    if e.kind == AN_OPERATION {
        return put_operation(o, at, e);
    }
    put_subdirectory(o, at, e)
}

// ---- lines
// The entries of a node, one after the other.
fn put_entries(o: &mut [u8; REPLY], at: usize, c: Codes) -> usize
    requires { CodesFit c × (at ≤ HEAD) }
    ensures put { Puts o.old at (codes_text (codes_in c)) o.new result }
    ensures grown { result ≤ at + ENTRY * c.count }
{
    let codes = c.codes;
    let mut end = at;
    for i in 0..c.count {
        end = put_entry(o, end, entry_of(codes[i]));
    }
    end
}

// `(node n ENTRY ..)`.
fn put_node(o: &mut [u8; REPLY], n: u32, c: Codes) -> usize
    requires { CodesFit c × (n ≤ NODES) }
    ensures put { Puts o.old 0 (form_text (node_of n c)) o.new result }
    ensures within { result ≤ REPLY }
{
    let begun = put_text(o, 0, b"(node");
    let numbered = put_value(o, begun, n as u64);
    let listed = put_entries(o, numbered, c);
    put_text(o, listed, b")\n")
}

// `(process p n)`.
fn put_process(o: &mut [u8; REPLY], p: u32, n: u32) -> usize
    ensures put { Puts o.old 0 (form_text (process_form p n)) o.new result }
    ensures within { result ≤ REPLY }
{
    let begun = put_text(o, 0, b"(process");
    let numbered = put_value(o, begun, p as u64);
    let placed = put_value(o, numbered, n as u64);
    put_text(o, placed, b")\n")
}

// ---- slots
// The line of node n; nothing where neither text has it.
fn node_line(first: &[u32], second: &[u32], n: u32) -> Reply
    requires { Accepted first.now second.now × (1 ≤ n) × (n ≤ NODES) }
    ensures { LineOf first.now second.now (λ fs gs. node_slot fs gs n) result }
{
    let mut bytes = [0u8; REPLY];
    let given = has_node(first, n) | has_node(second, n);
    if !given {
        return Reply { bytes, length: 0 };
    }
    let length = put_node(&mut bytes, n, merge_node(first, second, n));
    Reply { bytes, length }
}

// The line of process p; nothing where neither text has it.
fn process_line(first: &[u32], second: &[u32], p: u32) -> Reply
    requires { IsHeld first.now × IsHeld second.now }
    ensures { LineOf first.now second.now (λ fs gs. process_slot fs gs p) result }
{
    let mut bytes = [0u8; REPLY];
    let n = merge_process(first, second, p);
    if n == 0 {
        return Reply { bytes, length: 0 };
    }
    let length = put_process(&mut bytes, p, n);
    Reply { bytes, length }
}

fn last_line() -> Reply
    ensures { result ≡ in_reply (bytes "(open)\n") }
{
    let mut bytes = [0u8; REPLY];
    let length = put_text(&mut bytes, 0, b"(open)\n");
    Reply { bytes, length }
}

// The line of a slot: nodes in rising number, then processes, then `(open)`.
fn slot_line(first: &[u32], second: &[u32], k: usize) -> Reply
    requires { Accepted first.now second.now × (k < SLOTS) }
    ensures { LineOf first.now second.now (λ fs gs. slot_text fs gs k) result }
{
    if k < NODE_SLOTS {
        return node_line(first, second, (k + 1) as u32);
    }
    if k < FORM_SLOTS {
        return process_line(first, second, (k + 1 - NODE_SLOTS) as u32);
    }
    last_line()
}

// The joined text from a slot on: as many whole lines as `out` has room for, each counted with the room of a reply.
// Ruled out: a node left out or written twice; processes first; a text without `(open)`.
pub fn write_slots(first: &[u32], second: &[u32], from: usize, out: &mut [u8]) -> Written
    requires { Accepted first.now second.now }
    ensures { WritesSlots first.now second.now from out.old result out.new }
{
    let mut k = from;
    let mut n = 0;
    // a while of two conditions: with a for the answer is made in two places, where `out` is full and at the end
    while k < SLOTS && REPLY <= out.len() - n {
        let line = slot_line(first, second, k);
        n += hand_out(line, &mut out[n..]);
        k += 1;
    }
    Written {
        printed: n,
        next: k,
    }
}
