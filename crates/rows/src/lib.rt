// The types of the tables' records, as code and definitions share them.

#![tactic(auto)]

// The fields are the words of the lent runs, which may hold any number: so no enum for kinds and places, and 0, not an
// Option, for none.

// A row is one privilege. Codes and their tests: specs/Codes.antt. A field that a kind does not use is 0.
#[derive(Clone, Copy)]
pub struct Row {
    pub number: u32,
    pub kind: u32,
    // an operation's manager, a subdirectory's node, an end's port (its client end's number)
    pub object: u32,
    pub operation: u32,
    pub rights: u32,
    pub place: u32,
    // the numbers of the two sources, 0 for none
    pub source: u32,
    pub via: u32,
    pub depth: u32,
    // the request whose number a lent copy bears, 0 for none
    pub request: u32,
}

// An open request. An item that left the list leaves a 0 behind.
#[derive(Clone, Copy)]
pub struct Request {
    pub number: u32,
    pub port: u32,
    pub asker: u32,
    // 1 once fetched
    pub fetched: u32,
    pub items: [u32; 4],
}

// A process's record: all 0 where it is not listed; `through` is the subdirectory row gone through, 0 for none.
#[derive(Clone, Copy)]
pub struct Process {
    pub prime: u32,
    pub active: u32,
    pub through: u32,
}

// The rights (capcaps) of a row: a sum of hold 1, transfer 2 and register 4.
#[derive(Clone, Copy)]
pub struct Rights(pub u32);

// ---- functions
pub mod capcaps;
pub mod codes;
pub mod find;
pub mod layout;
pub mod read;
pub mod records;
