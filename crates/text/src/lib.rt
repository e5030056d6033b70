// What is read of a line, as code and definitions share it.

#![tactic(auto)]

use calls::Call;

// What a run of digits or of letters is worth, and the place after it.
#[derive(Clone, Copy)]
pub struct Run {
    pub value: u64,
    pub next: usize,
}

// A flag beside the values, no Option: definitions of the session's theorem (specs/Patterns.antt) have this record.
// What a pattern read up to the place `next`: the last word and the last three numbers, c the last.
#[derive(Clone, Copy)]
pub struct Read {
    pub good: bool,
    pub next: usize,
    pub word: u64,
    pub a: u32,
    pub b: u32,
    pub c: u32,
}

// A line, and the position up to which it is read.
#[derive(Clone, Copy)]
pub struct Reader<'a> {
    pub line: &'a [u8],
    pub at: usize,
}

// A refusal is a number, as in calls::Answer: reading_of and answered, of the theorem of the entry point call, have it.
// What a call line is: a call; an ask with too many items, of a caller; or refused by its text alone.
#[derive(Clone, Copy)]
pub enum Reading {
    Asks(Call),
    Crowded(u32),
    Refused(u32),
}

// The kind is a number, as in the row that an entry becomes.
// An entry of a node form: an operation's manager, or a subdirectory's node, is the object.
#[derive(Clone, Copy)]
pub struct Entry {
    pub kind: u32,
    pub object: u32,
    pub operation: u32,
    pub rights: u32,
}

// No Option and no enum: the reader goes on from `next` after a head that is none, and judges when all is read.
// The head of a line that has groups, and the position after it: of an ask its caller and its client end; of a comesall
// it has no numbers.
#[derive(Clone, Copy)]
pub struct Head {
    pub good: bool,
    pub next: usize,
    pub asks: bool,
    pub caller: u32,
    pub port: u32,
}

// What is seen of groups of two numbers: the position after them, how many; whether each is in range as an item of an
// ask, and as a pair of a comesall; whether no first number stands twice.
#[derive(Clone, Copy)]
pub struct Seen {
    pub next: usize,
    pub count: usize,
    pub items: bool,
    pub pairs: bool,
    pub apart: bool,
}

// Flat, no field of the type Seen: what judges groups looks at one fact of them at a time.
// The groups as they are read: what is seen of them, their first and their second numbers.
#[derive(Clone, Copy)]
pub struct Groups {
    pub next: usize,
    pub count: usize,
    pub items: bool,
    pub pairs: bool,
    pub apart: bool,
    pub firsts: [u32; 64],
    pub seconds: [u32; 64],
}

// An answer's text: the first `length` bytes; 0 after them. An array with its length, since the crates have no heap.
pub const REPLY: usize = 256;

#[derive(Clone, Copy)]
pub struct Reply {
    pub bytes: [u8; REPLY],
    pub length: usize,
}

// The entries of a node form: the position after them, how many, whether each is in range.
#[derive(Clone, Copy)]
pub struct EntriesRead {
    pub next: usize,
    pub count: usize,
    pub ranged: bool,
}

// What a line of an opening text is: a node form (the node, how many entries, whether each is in range), a process form
// (process, prime node), `(open)`, or bad. An enum of its own, with four cases: no Option and no Result.
#[derive(Clone, Copy)]
pub enum LineRead {
    Node(u32, usize, bool),
    Process(u32, u32),
    Last,
    Bad,
}

// a place for each number of a node, of a process, and for 0
pub const NODE_PLACES: usize = 33;

pub const PROCESS_PLACES: usize = 65;

// Which nodes and processes forms have given, each under its number.
#[derive(Clone, Copy)]
pub struct Given {
    pub nodes: [bool; NODE_PLACES],
    pub processes: [bool; PROCESS_PLACES],
}

// An opening text is refused: with a number, at a line. No `Refusal`: verdict_of, of the contracts, has any number.
#[derive(Clone, Copy)]
pub struct Refused {
    pub number: u32,
    pub line: usize,
}

// Whether a line names only what is given, and how many rows are written then; the second pass ends at the last line.
// Three cases, no Result of an Option: what is missing has a line, which the caller knows, and no number of its own.
#[derive(Clone, Copy)]
pub enum Naming {
    Listed(usize),
    Missing,
    Ended,
}

// ---- functions
pub mod call_line;
pub mod kept_lines;
pub mod opening_lines;
pub mod opening_text;
pub mod opening_words;
pub mod patterns;
pub mod replies;
