// The clauses of soundness of the process records and of the next number, each named as in rows/specs/Sound.antt.
// Kinds, places and 0 for none are numbers, no enums and no Option: the lent words may hold any, as `sound` says.
ghost use Rattle.std.specs.Prelude.{◌≡◌, ◌<◌, ◌≤◌, length};
ghost use Rattle.rows.specs.Lists.{all};
ghost use Rattle.rows.specs.Sound.{record_in_range, process_placed, placed_from};
ghost use Rattle.rows.specs.Layout.{records_in};
ghost use Rattle.rows.specs.vocabulary.Sizes.{ROWS, REQUESTS, PROCESSES, IsTables, IsRecords};
ghost use Rattle.rows.specs.vocabulary.OfState.{OfRows, TestsTables};
ghost use Rattle.soundness.specs.vocabulary.Laid.{before};
ghost use Rattle.soundness.specs.vocabulary.Clauses.{all_of_next};

use rows::Process;
use rows::codes::{A_SUBDIRECTORY, clist, is_node};
use rows::find::row_among;
use rows::layout::{KIND, NEXT, NUMBER, PROCESSES, Q_NUMBER, Q_PORT};
use rows::read::row_at;
use rows::records::record_at;

// ---- the next number
// The last of the first k words of a column. 0 for none, no Option: `before` has it so, and 0 is below any next number.
// Ruled out: the word after it; the first word.
pub fn last_of(column: &[u32], k: usize) -> u32
    requires { k ≤ length column.now }
    ensures { result ≡ before column.now k }
{
    if k == 0 {
        return 0;
    }
    column[k - 1]
}

// In range is every word but 0, and what is above another word is not 0.
// Ruled out: a next number that a row or a request has; 0 in tables without rows and requests.
pub fn next_sound(t: &[u32], n: usize, m: usize) -> bool
    requires { IsTables t.now × (n ≤ ROWS) × (m ≤ REQUESTS) }
    ensures { TestsTables t.now n m result all_of_next }
{
    let next = t[NEXT];
    let row = last_of(&t[NUMBER..KIND], n);
    let request = last_of(&t[Q_NUMBER..Q_PORT], m);
    (row < next) & (request < next)
}

// ---- the process records
// Ruled out: a prime node of 33; a record with a node of 0 that has gone through a row.
pub fn record_in_range(x: Process) -> bool
    ensures { result ≡ record_in_range x }
{
    let unused = (x.prime == 0) & ((x.active == 0) & (x.through == 0));
    let prime = is_node(x.prime);
    let active = is_node(x.active);
    unused | (prime & active)
}

// Ruled out: yes where the last record is out of range; no for a record that is not used.
pub fn records_sound(p: &[u32]) -> bool
    requires { IsRecords p.now }
    ensures { result ≡ all record_in_range (records_in p.now) }
{
    let mut in_range = true;
    for i in 0..PROCESSES {
        let x = record_at(p, i);
        in_range = in_range & record_in_range(x);
    }
    in_range
}

// Of the record of process q. Ruled out: a row of another process's c-list; one that is no subdirectory.
pub fn process_placed(t: &[u32], n: usize, q: u32, x: Process) -> bool
    requires { IsTables t.now × (n ≤ ROWS) × (q ≤ PROCESSES) }
    ensures { OfRows t.now n result (λ rs. process_placed rs q x) }
{
    if x.through == 0 {
        return x.active == x.prime;
    }
    let Some(i) = row_among(t, n, x.through) else {
        return false;
    };
    let r = row_at(t, i);
    let home = clist(q);
    (r.kind == A_SUBDIRECTORY) & ((r.place == home) & (r.object == x.active))
}

// Of every process. Ruled out: yes where process 64 alone is in a wrong node; the processes counted from 0.
pub fn processes_placed(t: &[u32], p: &[u32], n: usize) -> bool
    requires { IsTables t.now × IsRecords p.now × (n ≤ ROWS) }
    ensures { OfRows t.now n result (λ rs. placed_from rs 1 (records_in p.now)) }
{
    let mut placed = true;
    for i in 0..PROCESSES {
        let x = record_at(p, i);
        let q = i as u32 + 1;
        placed = placed & process_placed(t, n, q, x);
    }
    placed
}
