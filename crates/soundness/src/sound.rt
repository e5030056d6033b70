// Sound tables as words, of any length and any content: first that the words are laid, then the clauses group by group.
ghost use Rattle.std.specs.Prelude.{◌≡◌, ◌≤◌};
ghost use Rattle.rows.specs.Sound.{sound};
ghost use Rattle.rows.specs.Layout.{sound_words};
ghost use Rattle.rows.specs.vocabulary.Sizes.{ROWS, REQUESTS, IsTables, IsRecords};
ghost use Rattle.rows.specs.vocabulary.OfState.{Tests};
ghost use Rattle.soundness_rows.specs.vocabulary.Seen.{SourcesOlder};
ghost use Rattle.soundness.specs.vocabulary.Clauses.{TestsRest};

use crate::laid::{requests_laid, rows_laid};
use crate::record_clauses::{next_sound, processes_placed, records_sound};
use rows::find::{requests_in, rows_in};
use rows::layout::{RECORDS, TABLES};
use soundness_loans::holder_clauses::holders_sound;
use soundness_loans::request_clauses::requests_sound;
use soundness_rows::rows_sound::rows_sound;

// Groups of tests joined by & look alike, here and in the crates below: each names other clauses, and `all` over a list
// of tests would be no plainer.
// The clauses of rows, requests, holders and processes, where the next number and the records are in range.
// Ruled out: one of the four groups is left out; the processes of another run.
fn tables_sound(t: &[u32], p: &[u32], n: usize, m: usize) -> bool
    requires sizes { IsTables t.now × IsRecords p.now × (n ≤ ROWS) × (m ≤ REQUESTS) }
    requires sources { SourcesOlder t.now n }
    ensures { TestsRest t.now p.now n m result }
{
    let rows = rows_sound(t, p, n);
    let requests = requests_sound(t, p, n, m);
    let holders = holders_sound(t, n, m);
    let placed = processes_placed(t, p, n);
    rows & (requests & (holders & placed))
}

// All clauses, where the words are laid. Ruled out: the records are left out; tables with a wrong next number.
fn clauses_sound(t: &[u32], p: &[u32], n: usize, m: usize) -> bool
    requires sizes { IsTables t.now × IsRecords p.now × (n ≤ ROWS) × (m ≤ REQUESTS) }
    requires sources { SourcesOlder t.now n }
    ensures { Tests t.now p.now n m result sound }
{
    let next = next_sound(t, n, m);
    let records = records_sound(p);
    let tables = tables_sound(t, p, n, m);
    next & (records & tables)
}

// Ruled out: yes for tables with one clause broken, or with a word in an unused slot; no for sound tables.
pub fn sound(tables: &[u32], processes: &[u32]) -> bool
    ensures { result ≡ sound_words tables.now processes.now }
{
    if tables.len() != TABLES {
        return false;
    }
    if processes.len() != RECORDS {
        return false;
    }
    let n = rows_in(tables);
    let m = requests_in(tables);
    let rows = rows_laid(tables, n);
    let requests = requests_laid(tables, m);
    if !(rows & requests) {
        return false;
    }
    clauses_sound(tables, processes, n, m)
}
