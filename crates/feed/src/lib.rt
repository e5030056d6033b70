// A session fed in parts: what is kept of it between two bytes, as code and definitions share it.

#![tactic(auto)]

// What is read now: the opening text, or calls; or the session is over, after a refused opening.
#[derive(Clone, Copy, PartialEq, Eq)]
pub enum Stage {
    Opening,
    Calls,
    Over,
}

// No heap, so one buffer and two lengths. What the buffer of the bytes kept has: in front, so many bytes of an opening
// that is not decided; then, so many of the line begun.
#[derive(Clone, Copy)]
pub struct Kept {
    pub stage: Stage,
    pub text: usize,
    pub line: usize,
}

// What is kept after bytes or a line, and how many bytes were printed: a number and no slice of the output, since the
// contracts name the bytes after them too.
#[derive(Clone, Copy)]
pub struct Moved {
    pub kept: Kept,
    pub printed: usize,
}

// The same after a part from a position on, and the position up to which it was read.
#[derive(Clone, Copy)]
pub struct Fed {
    pub kept: Kept,
    pub printed: usize,
    pub next: usize,
}

// the bytes kept: of an opening that is not decided, and of a line
pub const KEPT: usize = 24833;

// ---- functions
pub mod deciding;
pub mod keeping;
pub mod sessions;
