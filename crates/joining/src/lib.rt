// Two opening texts joined, as code and definitions share it: what is kept of a text, and how far reading has come.

#![tactic(auto)]

use text::Given;

// What is read now: the first text or the second; or reading is over, since both are read or one is refused.
#[derive(Clone, Copy)]
pub enum Stage {
    First,
    Second,
    Over,
}

// A refusal is kept as a number: Holds, of the contracts, has any.
// How far reading has come: the stage, the refusal of a text that is refused, the number of the line begun (of a
// refused text, of the line refused), and what the forms of the text begun have given.
#[derive(Clone, Copy)]
pub struct Joining {
    pub stage: Stage,
    pub refusal: Option<u32>,
    pub number: usize,
    pub given: Given,
}

// Why two texts are not joined: one of them is refused, with a number at a line of it, or both together are. Numbers,
// not a `Refusal`: verdict_of, of the contracts, has any.
#[derive(Clone, Copy)]
pub enum NotJoined {
    OfText(u32, usize),
    OfBoth(u32),
}

// The same after bytes of a part, with how many bytes are kept of the line begun, and the position up to which the part
// was read.
#[derive(Clone, Copy)]
pub struct Fed {
    pub joining: Joining,
    pub line: usize,
    pub next: usize,
}

// An array with its length, since the crates have no heap.
// The codes of a joined node's entries: the first `count`; 0 after them.
#[derive(Clone, Copy)]
pub struct Codes {
    pub count: usize,
    pub codes: [u32; CODES],
}

// Lines written: their bytes, and the slot of the next line.
#[derive(Clone, Copy)]
pub struct Written {
    pub printed: usize,
    pub next: usize,
}

// ---- a directory: the forms of one text in words
// a node's words: whether a form gives it, how many entries, their codes
pub const NODE_WORDS: usize = 18;

pub const CODES_AT: usize = 2;

// after nodes 0 to 32, of which 0 is not used, the prime node of each process
pub const PRIMES: usize = 594;

pub const DIRECTORY: usize = 659;

// the entries that a joined node has at most, before they are counted
pub const CODES: usize = 32;

// ---- the joined text
// a slot for each node, each process and `(open)`
pub const SLOTS: usize = 97;

// room for it, whatever it is: that of a reply for each slot
pub const JOINED: usize = 24832;

// ---- functions
pub mod answers;
pub mod directories;
pub mod feeding;
pub mod lines;
pub mod merging;
pub mod reading;
pub mod refusals;
