// A call and its answer, as code and definitions share them.
// An item of an ask: a row and the rights lent. Row 0: no item.

#![tactic(auto)]

#[derive(Clone, Copy)]
pub struct Item {
    pub row: u32,
    pub rights: u32,
}

// Four numbers, 0 for none.
// Structs of four: `numbers_of` and `all_of` read them field by field, and by `answer-read` the text of every answer
// says sixteen values at most, which an array's type does not tell the logic.
#[derive(Clone, Copy)]
pub struct Four {
    pub first: u32,
    pub second: u32,
    pub third: u32,
    pub fourth: u32,
}

// Sixteen numbers, 0 for none.
#[derive(Clone, Copy)]
pub struct Sixteen {
    pub first: Four,
    pub second: Four,
    pub third: Four,
    pub fourth: Four,
}

// A call: the caller's number, then the call's; comes, chain and comesall have no caller.
// Of an ask: its items, those named first, then no items. Of an answer: whether the request was served.
// Of a comesall: the rows of its pairs, 0 after the last, and their requests.
#[derive(Clone, Copy)]
pub enum Call {
    Go(u32, u32),
    Hold(u32, u32),
    Register(u32, u32),
    Drop(u32, u32),
    Port(u32, u32),
    Close(u32, u32),
    Ask(u32, u32, [Item; 4]),
    Fetch(u32, u32),
    Answer(u32, u32, bool),
    Revoke(u32, u32),
    Comes(u32, u32),
    Chain(u32),
    ComesAll(Sixteen, Sixteen),
}

// Why a line, a call, an opening text or a joining is refused, each with the number that is printed.
#[derive(Clone, Copy, Debug, PartialEq, Eq)]
pub enum Refusal {
    // the lent words are not sound tables
    Unsound = 1,
    // the line has none of the forms
    BadForm = 2,
    // a number is out of its range
    OutOfRange = 3,
    // two forms for one node or process
    GivenTwice = 4,
    // the process or node is not listed
    NotListed = 5,
    // too many entries or items
    TooMany = 6,
    // what is named is not the caller's, or not there
    NotHeld = 7,
    // it is of another kind
    WrongKind = 8,
    // a right is missing, or more is lent than the row has
    NoRight = 9,
    // a port has an open request, or an item is an end of the port asked over
    Busy = 10,
    // the port has no request for this: none is open, or it is fetched already, or not yet
    NoRequest = 11,
    // a loan forbids it
    Lent = 12,
    // another row has the row for a source, or the caller is in a node through it
    InUse = 13,
    // a lent end is not back
    Away = 14,
    // the new row would have depth 13
    TooDeep = 15,
    // too few rows are free
    RowsFull = 16,
    // no request is free
    RequestsFull = 17,
    // too few numbers are left
    NumbersSpent = 18,
    // a process of two joined texts has two prime nodes
    PrimesDiffer = 20,
}

// What a call answers. The numbers and values of each case: specs/Answers.antt.
// A refusal is its number here, not a `Refusal`: definitions and their tables of cases have the number.
#[derive(Clone, Copy)]
pub enum Answer {
    Done,
    Made(u32),
    // the request, and its four items, 0 for one that is not listed
    Fetched(u32, [u32; 4]),
    Told(bool),
    // the rows of a chain, twelve at most, 0 after the last
    Chained(Four, Four, Four),
    // of each pair what is told, as a code, 0 after the last
    ToldAll(Sixteen),
    Refused(u32),
}

// ---- functions
// The words that functions are lent are slices with `IsTables`: an array's type would ask more of the callers of public
// functions, as `perform`.

// What a new copy has of its own; kind, object and operation are its row's.
// Sources as words, as they stand in the lent words: a slot plus 1, 0 for none.
#[derive(Clone, Copy)]
pub struct NewCopy {
    pub number: u32,
    pub rights: u32,
    pub place: u32,
    pub source: u32,
    pub via: u32,
    pub depth: u32,
    pub request: u32,
}

// A new port: the number of its client end, the source word of its operation row, the places of its ends, their depth.
#[derive(Clone, Copy)]
pub struct NewPort {
    pub number: u32,
    pub source: u32,
    pub client: u32,
    pub server: u32,
    pub depth: u32,
}

// An item of an ask with its row looked up: the row's source word, 0 for no item; how many rows it takes, 1 for a copy.
// Both are numbers: the word goes into the lent words as it is, and the copies are counted.
#[derive(Clone, Copy)]
pub struct ItemRow {
    pub item: Item,
    pub word: u32,
    pub copies: u32,
}

// A new request: its number, its port's client end and the slot of that row, the process that asks.
#[derive(Clone, Copy)]
pub struct NewRequest {
    pub number: u32,
    pub port: u32,
    pub slot: usize,
    pub asker: u32,
}

// A loan as its items are lent one after the other: how many rows stand, the next number, the list and its length.
// An array with a length: no heap here.
#[derive(Clone, Copy)]
pub struct Loan {
    pub rows: usize,
    pub next: u32,
    pub items: [u32; 4],
    pub count: usize,
}

pub mod answering;
pub mod ask;
pub mod chain;
pub mod comes;
pub mod comes_all;
pub mod directories;
pub mod fetch;
pub mod lend;
pub mod lookups;
pub mod new_rows;
pub mod numbers;
pub mod perform;
pub mod ports;
pub mod refusals;
pub mod revoke;
pub mod tests;
