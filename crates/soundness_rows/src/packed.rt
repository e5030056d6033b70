// What the clauses of a row ask of its sources, packed into one word a row: a loop over rows then reads one word of a
// source where it would read six, and the compiler tests several rows at once. Of a row whose fields are in range the
// word tells rights, kind, operation, object (of an end it tells none), whether its place is a node, and depth.
// Numbers in one word, no struct: of six fields the compiler would read each, and not test several rows at once.
ghost use Rattle.std.specs.Prelude.{◌≡◌, ◌≤◌, if◌then◌else◌};
ghost use Rattle.rows.specs.Codes.{is_node};
ghost use Rattle.soundness_rows.specs.vocabulary.Packed.{packed, Unpacks, SameObject};

use rows::Row;
use rows::codes::is_node;
use rows::layout::ROWS;

// The words of all rows: that of slot i at i + 1, and 0 for no row.
pub const PACKED: usize = ROWS + 1;

// where each part of the word starts
const KIND_AT: u32 = 8;

const OPERATION_AT: u32 = 64;

const OBJECT_AT: u32 = 16384;

const NODE_AT: u32 = 2097152;

const DEPTH_AT: u32 = 4194304;

// kind, operation and object together
const OBJECTS: u32 = 262144;

// Ruled out: two parts that overlap; a sum that wraps for a row that is not in range.
pub fn pack(x: Row) -> u32
    ensures { result ≡ packed x }
{
    let node = is_node(x.place);
    let place = u32::from(node);
    let object = KIND_AT * (x.kind % 8)
        + OPERATION_AT * (x.operation % 256)
        + OBJECT_AT * (x.object % 128);
    x.rights % 8 + object + NODE_AT * place + DEPTH_AT * (x.depth % 16)
}

// ---- what a word tells of the row that it packs
// Ruled out: the rights and the kind; another row's.
pub fn rights_in(w: u32) -> u32
    ensures { Unpacks w result (λ y. y.rights) }
{
    w % KIND_AT
}

// Ruled out: the kind with the operation; the rights.
pub fn kind_in(w: u32) -> u32
    ensures { Unpacks w result (λ y. y.kind) }
{
    w / KIND_AT % 8
}

// Ruled out: yes for a row in a c-list; the depth's lowest bit.
pub fn node_in(w: u32) -> bool
    ensures { Unpacks w result (λ y. is_node y.place) }
{
    w / NODE_AT % 2 == 1
}

// Ruled out: the depth with the bit of the node; half of it.
pub fn depth_in(w: u32) -> u32
    ensures { Unpacks w result (λ y. y.depth) }
{
    w / DEPTH_AT
}

// Whether two rows, of which the first is no end, have the same kind, operation and object.
// Ruled out: yes for two operations of one manager; no where the rights alone differ.
pub fn same_object(a: u32, b: u32) -> bool
    ensures { SameObject a b result }
{
    a / KIND_AT % OBJECTS == b / KIND_AT % OBJECTS
}
