// The process records in their lent run of words, three to a record.
ghost use Rattle.std.specs.Prelude.{◌≡◌, ◌<◌, slice_index_or, slice_set};
ghost use Rattle.rows.specs.Tables.{is_listed, no_process};
ghost use Rattle.rows.specs.Layout.{records_in, records_of};
ghost use Rattle.rows.specs.vocabulary.Sizes.{PROCESSES, IsRecords};

use crate::Process;
use crate::codes::LAST_PROCESS;
use crate::layout::{PROCESSES, RECORD_WORDS};

// The records of all processes: that of process p is element p - 1.
pub type Records = [Process; PROCESSES];

// The record of process i + 1. Ruled out: the record before it or after it; two fields swapped.
pub fn record_at(p: &[u32], i: usize) -> Process
    requires { IsRecords p.now × (i < PROCESSES) }
    ensures { result ≡ slice_index_or (records_in p.now) i no_process }
{
    let at = RECORD_WORDS * i;
    Process {
        prime: p[at],
        active: p[at + 1],
        through: p[at + 2],
    }
}

// Writes the record of process i + 1. Ruled out: the record of another process changes; two fields swapped.
pub fn set_record(p: &mut [u32], i: usize, x: Process)
    requires { IsRecords p.old × (i < PROCESSES) }
    ensures written { records_in p.new ≡ slice_set (records_in p.old) i x }
    ensures long { IsRecords p.new }
{
    let at = RECORD_WORDS * i;
    p[at] = x.prime;
    p[at + 1] = x.active;
    p[at + 2] = x.through;
}

// The records by value. Ruled out: a record is left out; one stands in the place of another.
pub fn load(p: &[u32]) -> Records
    requires { IsRecords p.now }
    ensures { result ≡ records_in p.now }
{
    let none = Process {
        prime: 0,
        active: 0,
        through: 0,
    };
    let mut ps = [none; PROCESSES];
    // not array::from_fn: its contract gives no record by its index
    for i in 0..PROCESSES {
        ps[i] = record_at(p, i);
    }
    ps
}

// Writes the records back. Ruled out: a record is left as it was; one is written in the place of another.
pub fn store(ps: Records, p: &mut [u32])
    requires { IsRecords p.old }
    ensures { p.new ≡ records_of ps }
{
    for (i, x) in ps.iter().enumerate() {
        set_record(p, i, *x);
    }
}

// Whether n is a listed process, for any n, without a branch, so that loops over many rows run over several at once
// (0 wraps past every process). Ruled out: 0 or 65 is listed; the record after that of n decides.
pub fn listed(p: &[u32], n: u32) -> bool
    requires { IsRecords p.now }
    ensures { result ≡ is_listed (records_in p.now) n }
{
    let i = n.wrapping_sub(1);
    // as: no From makes a usize of a u32, here and elsewhere
    let at = (i % LAST_PROCESS) as usize;
    let prime = p[RECORD_WORDS * at];
    (i < LAST_PROCESS) & (0 < prime)
}
