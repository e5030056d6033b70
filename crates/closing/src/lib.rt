// Closing of a request and of a port, and the drop of a row. The definitions stand in specs/Closing.antt.

#![tactic(auto)]

// The rows that a closing starts from: those that bear a request, the two ends of a port (by its client end), one row.
#[derive(Clone, Copy)]
pub enum Seed {
    Bearing(u32),
    EndsOf(u32),
    Only(u32),
}

// ---- functions
pub mod close;
pub mod homes;
pub mod lists;
pub mod marks;
