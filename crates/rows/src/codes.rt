// The codes of kinds and places, and the limits, as specs/Codes.antt and specs/Limits.antt define them.
ghost use Rattle.std.specs.Prelude.{◌≡◌, ◌≤◌};
ghost use Rattle.rows.specs.Codes.{is_end, is_copied, in_clist, is_node, is_clist};
ghost use Rattle.rows.specs.vocabulary.Sizes.{PROCESSES};

// Kinds and places are numbers, not enums: the lent words may hold any number, and soundness has to see one that is
// none.

pub const AN_OPERATION: u32 = 1;

pub const A_SUBDIRECTORY: u32 = 2;

pub const A_CLIENT_END: u32 = 3;

pub const A_SERVER_END: u32 = 4;

// places: nodes from 1, c-lists from 101, the system
pub const LAST_NODE: u32 = 32;

pub const LAST_PROCESS: u32 = 64;

pub const BEFORE_CLISTS: u32 = 100;

pub const FIRST_CLIST: u32 = 101;

pub const LAST_CLIST: u32 = 164;

pub const THE_SYSTEM: u32 = 200;

pub const LAST_OPERATION: u32 = 255;

pub const ALL_RIGHTS: u32 = 7;

pub const GREATEST_DEPTH: u32 = 12;

// the greatest number of a row or a request, and the greatest next number
pub const LAST_NUMBER: u32 = 4294967294;

pub const LAST_NEXT: u32 = LAST_NUMBER + 1;

// `&` and `|` in these tests, not a range's `contains` or matches!: loops over many rows ask them, without a branch.

// ---- kinds
// Whether a kind is that of an end of a port.
// Ruled out: yes for the client end alone; yes for an operation.
pub fn is_end(kind: u32) -> bool
    ensures { result ≡ is_end kind }
{
    (kind == A_CLIENT_END) | (kind == A_SERVER_END)
}

// An operation or a subdirectory. Ruled out: an end; any other code.
pub fn is_copied(kind: u32) -> bool
    ensures { result ≡ is_copied kind }
{
    (kind == AN_OPERATION) | (kind == A_SUBDIRECTORY)
}

// ---- places
// Whether a place is a node. Ruled out: place 0; place 33.
#[tactic(auto, unfolding(crate::specs::Codes::is_node, crate::specs::Lists::between, crate::specs::Limits::nodes))]
pub fn is_node(place: u32) -> bool
    ensures { result ≡ is_node place }
{
    (1 <= place) & (place <= LAST_NODE)
}

// Whether a place is a process's c-list. Ruled out: place 100; place 165.
pub fn is_clist(place: u32) -> bool
    ensures { result ≡ is_clist place }
{
    (FIRST_CLIST <= place) & (place <= LAST_CLIST)
}

// The place of a process's c-list; 0 for what is no process, since 0 is no place and the words have it for none.
// Ruled out: the process's own number; the c-list of the next one.
#[tactic(auto, unfolding(crate::specs::Codes::in_clist))]
pub fn clist(p: u32) -> u32
    ensures { p ≤ PROCESSES → result ≡ in_clist p }
{
    if p <= LAST_PROCESS {
        return BEFORE_CLISTS + p;
    }
    0
}
