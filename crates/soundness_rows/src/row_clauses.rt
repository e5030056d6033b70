// The clauses of soundness of one row, each named as in rows/specs/Sound.antt, without branches, so that a loop over
// rows tests several at once. The row comes as its slot's words: x; s and v are the packed words of its sources.
// Kinds and places are numbers, no enums: the lent words may hold any, and soundness must say no to what is none.
// & and |, not && and an early return: those take 3 times the instructions in the loops over rows.
ghost use Rattle.std.specs.Prelude.{◌≡◌, suc, ◌&&◌, ◌==◌};
ghost use Rattle.rows.specs.Sound.{object_in_range, right_in_range, place_in_range, is_opening, is_registered, is_held};
ghost use Rattle.rows.specs.Sound.{is_port_end, copy_matches, source_of, via_of};
ghost use Rattle.rows.specs.Layout.{records_in};
ghost use Rattle.rows.specs.vocabulary.Sizes.{IsRecords};
ghost use Rattle.soundness_rows.specs.vocabulary.Seen.{SaysOf, SaysOfPacked};
ghost use Rattle.soundness_rows.specs.vocabulary.Clauses.{own_right, is_copy_over, shape_right, depth_next, by_sources};

use crate::packed::{depth_in, kind_in, node_in, rights_in, same_object};
use rows::codes::{
    A_CLIENT_END, A_SERVER_END, A_SUBDIRECTORY, ALL_RIGHTS, AN_OPERATION, BEFORE_CLISTS,
    GREATEST_DEPTH, LAST_OPERATION, THE_SYSTEM, is_clist, is_copied, is_end, is_node,
};
use rows::records::listed;
use rows::{Rights, Row};

// ---- numbers
// The next number. Ruled out: the same number; a sum that wraps to 0.
pub fn follows(a: u32, b: u32) -> bool
    ensures { result ≡ (suc a == b) }
{
    (0 < b) & (b.wrapping_sub(1) == a)
}

// ---- fields in range
// Ruled out: an operation of a manager that is not listed; a server end right after no client end.
pub fn object_in_range(x: Row, p: &[u32]) -> bool
    requires { IsRecords p.now }
    ensures { result ≡ object_in_range (records_in p.now) x }
{
    let manager = listed(p, x.object);
    let node = is_node(x.object);
    let after = follows(x.object, x.number);
    let none = x.operation == 0;
    let operation = (x.kind == AN_OPERATION) & (manager & (x.operation <= LAST_OPERATION));
    let subdirectory = (x.kind == A_SUBDIRECTORY) & (node & none);
    let client = (x.kind == A_CLIENT_END) & ((x.object == x.number) & none);
    let server = (x.kind == A_SERVER_END) & (after & none);
    operation | (subdirectory | (client | server))
}

// Ruled out: an end with a right; rights of 8.
pub fn right_in_range(x: Row) -> bool
    ensures { result ≡ right_in_range x }
{
    let end = is_end(x.kind);
    (x.rights == 0) | (!end & (x.rights <= ALL_RIGHTS))
}

// Ruled out: the c-list of a process that is not listed; a place between nodes and c-lists.
pub fn place_in_range(x: Row, p: &[u32]) -> bool
    requires { IsRecords p.now }
    ensures { result ≡ place_in_range (records_in p.now) x }
{
    let node = is_node(x.place);
    let clist = is_clist(x.place);
    let home = listed(p, x.place.wrapping_sub(BEFORE_CLISTS));
    node | ((clist & home) | (x.place == THE_SYSTEM))
}

// The fields of a row by themselves. Ruled out: one of the four tests alone decides; depth 13.
pub fn own_right(x: Row, p: &[u32]) -> bool
    requires { IsRecords p.now }
    ensures { result ≡ own_right (records_in p.now) x }
{
    let object = object_in_range(x, p);
    let right = right_in_range(x);
    let place = place_in_range(x, p);
    (object & (right & place)) & (x.depth <= GREATEST_DEPTH)
}

// ---- sources
// Ruled out: a row of a node with a source; an end.
fn is_opening(x: Row) -> bool
    ensures { result ≡ is_opening x }
{
    let node = is_node(x.place);
    let copied = is_copied(x.kind);
    node & (copied & ((x.source == 0) & ((x.via == 0) & (x.request == 0))))
}

// The shapes look alike, and each is a clause of its own: they differ in what they ask of the place and of the sources.
// Ruled out: a source that is in no node; a second source.
fn is_registered(x: Row, s: u32, v: u32) -> bool
    ensures { SaysOf x s v result (λ y rs. is_registered y (source_of rs y)) }
{
    let node = is_node(x.place);
    let copied = is_copied(x.kind);
    let from = node_in(s);
    node & (copied & (from & ((x.via == 0) & (x.request == 0))))
}

// Ruled out: a source that is in no node; a second source that is an operation.
fn is_held(x: Row, s: u32, v: u32) -> bool
    ensures { SaysOf x s v result (λ y rs. is_held y (source_of rs y) (via_of rs y)) }
{
    let home = is_clist(x.place);
    let copied = is_copied(x.kind);
    let from = node_in(s);
    let kind = kind_in(v);
    let through = (x.via == 0) | (kind == A_SUBDIRECTORY);
    home & (copied & (from & (through & (x.request == 0))))
}

// Ruled out: an end in a node; an end whose source is a subdirectory.
fn is_port_end(x: Row, s: u32, v: u32) -> bool
    ensures { SaysOf x s v result (λ y rs. is_port_end y (source_of rs y)) }
{
    let end = is_end(x.kind);
    let node = is_node(x.place);
    let kind = kind_in(s);
    end & (!node & ((kind == AN_OPERATION) & ((x.via == 0) & (x.request == 0))))
}

// A lent copy, but for the port of its request. Ruled out: a second source that is a server end; a copy of an end.
fn is_copy_over(x: Row, s: u32, v: u32) -> bool
    ensures { SaysOf x s v result (λ y rs. is_copy_over y (source_of rs y) (via_of rs y)) }
{
    let node = is_node(x.place);
    let copied = is_copied(x.kind);
    let kind = kind_in(s);
    let from = is_copied(kind);
    let over = kind_in(v);
    (0 < x.request) & (!node & (copied & (from & (over == A_CLIENT_END))))
}

// One of the five, but for the port of a copy's request. Ruled out: a row that is none of them; an opening row alone.
pub fn source_right(x: Row, s: u32, v: u32) -> bool
    ensures { SaysOf x s v result shape_right }
{
    let opening = is_opening(x);
    let registered = is_registered(x, s, v);
    let held = is_held(x, s, v);
    let end = is_port_end(x, s, v);
    let copy = is_copy_over(x, s, v);
    opening | (registered | (held | (end | copy)))
}

// Ruled out: the depth of the first source alone decides; the same depth.
pub fn depth_right(x: Row, s: u32, v: u32) -> bool
    ensures { SaysOf x s v result depth_next }
{
    let first = depth_in(s);
    let second = depth_in(v);
    let top = first.max(second);
    follows(top, x.depth)
}

// The row itself is packed too: w. Ruled out: a copy with a right that its row lacks; a copy of another object.
pub fn copy_matches(x: Row, w: u32, s: u32, v: u32) -> bool
    ensures { SaysOfPacked x w s v result copy_matches }
{
    let end = is_end(x.kind);
    let own = rights_in(w);
    let given = rights_in(s);
    let rights = Rights(own).within(Rights(given));
    let same = same_object(w, s);
    (x.source == 0) | (end | (same & rights))
}

// The clauses of its sources. Ruled out: one of the three tests alone decides; a wrong depth.
pub fn sources_right(x: Row, w: u32, s: u32, v: u32) -> bool
    ensures { SaysOfPacked x w s v result by_sources }
{
    let right = source_right(x, s, v);
    let depth = depth_right(x, s, v);
    let copy = copy_matches(x, w, s, v);
    right & (depth & copy)
}

// ---- other rows
// Ends of one port have its object and the same source. Ruled out: ends of two ports; ends whose sources differ.
pub fn of_one_port(a: Row, b: Row) -> bool
    ensures { result ≡ (a.object == b.object && a.source == b.source) }
{
    (a.object == b.object) & (a.source == b.source)
}
