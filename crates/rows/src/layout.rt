// Where the columns of the lent runs of words start, and how long the runs are: specs/Layout.antt. The runs are slices,
// as C lends them: public functions take them so, with the clause IsTables or IsRecords for the length, and no narrower
// type.
// Columns, not an array of records: the C interface lays the words out so.

// (rule W11) the version of this layout; the words do not hold it
pub const LAYOUT_VERSION: u32 = 1;

// slots of rows, of requests; processes; items of a request
pub const ROWS: usize = 1024;

pub const REQUESTS: usize = 128;

pub const PROCESSES: usize = 64;

pub const ITEMS: usize = 4;

// a mark for each slot of rows; of requests
pub type RowMarks = [bool; ROWS];

pub type RequestMarks = [bool; REQUESTS];

// the rows' columns, ROWS words each
pub const ROW_COLUMNS: usize = 10;

pub const NUMBER: usize = 0;

pub const KIND: usize = ROWS;

pub const OBJECT: usize = 2 * ROWS;

pub const OPERATION: usize = 3 * ROWS;

pub const RIGHTS: usize = 4 * ROWS;

pub const PLACE: usize = 5 * ROWS;
// the slots of the two sources, plus 1; 0 for none, in words that may hold any number
pub const SOURCE: usize = 6 * ROWS;

pub const VIA: usize = 7 * ROWS;

pub const DEPTH: usize = 8 * ROWS;

pub const REQUEST: usize = 9 * ROWS;

// the requests' columns, REQUESTS words each
pub const REQUEST_COLUMNS: usize = 8;

pub const Q_NUMBER: usize = ROW_COLUMNS * ROWS;

pub const Q_PORT: usize = Q_NUMBER + REQUESTS;

pub const Q_ASKER: usize = Q_NUMBER + 2 * REQUESTS;

pub const Q_FETCHED: usize = Q_NUMBER + 3 * REQUESTS;
// the columns of the four items
pub const Q_ITEMS: usize = Q_NUMBER + 4 * REQUESTS;

pub const Q_ITEM_2: usize = Q_ITEMS + REQUESTS;

pub const Q_ITEM_3: usize = Q_ITEMS + 2 * REQUESTS;

pub const Q_ITEM_4: usize = Q_ITEMS + 3 * REQUESTS;

// the next number, and the length of the run
pub const NEXT: usize = Q_NUMBER + REQUEST_COLUMNS * REQUESTS;

pub const TABLES: usize = NEXT + 1;

// the words of a process record, and the length of the run of records
pub const RECORD_WORDS: usize = 3;

pub const RECORDS: usize = RECORD_WORDS * PROCESSES;
