// The holders' page, as code and definitions share it: what a line shows of a row, and how long a line is.

#![tactic(auto)]

// The five fields of a row that its line shows. Kind and place are numbers, not enums: the lent words may hold any, and
// of one that is none the line shows nothing.
#[derive(Clone, Copy)]
pub struct Shown {
    pub number: u32,
    pub kind: u32,
    pub place: u32,
    pub rights: u32,
    pub depth: u32,
}

// the columns of a line; its bytes, with the line feed
pub const WIDTH: usize = 64;

pub const LINE: usize = WIDTH + 1;

// ---- functions
pub mod columns;
pub mod lines;
