// Reading: the version of the layout, the words of a slot, the next number, the process records.
// Where a length or slot does not fit, nothing is written, and the answer is 0 or no. Rows and requests are written out
// word by word: that is the order of their columns in C.
ghost use Rattle.std.specs.Prelude.{◌≡◌, false, ◌<◌, get_or};
ghost use Rattle.rows.specs.Tables.{is_listed};
ghost use Rattle.rows.specs.Layout.{layout_version, records_in};
ghost use Rattle.rows.specs.vocabulary.Sizes.{ROWS, REQUESTS, NEXT, IsTables, IsRecords};
ghost use Rattle.test_exports.specs.vocabulary.Exports.{Unless, ReadsRow, ReadsRequest, StoresRecords};
ghost use Rattle.test_exports.specs.vocabulary.Exports.{RecordsStay};

use rows::layout::{LAYOUT_VERSION, RECORDS, REQUEST_COLUMNS, REQUESTS, ROW_COLUMNS, ROWS, TABLES};
use rows::{read, records};

#[unsafe(no_mangle)]
pub extern "C" fn kernel_layout_version() -> u32
    ensures { result ≡ layout_version }
{
    LAYOUT_VERSION
}

#[unsafe(no_mangle)]
pub extern "C" fn kernel_row_at(t: &[u32], i: usize, out: &mut [u32; ROW_COLUMNS])
    ensures read { ReadsRow t.now i out.new }
    ensures other { Unless (IsTables t.now × (i < ROWS)) (out.new ≡ out.old) }
{
    if t.len() != TABLES {
        return;
    }
    if ROWS <= i {
        return;
    }
    let r = read::row_at(t, i);
    *out = [
        r.number,
        r.kind,
        r.object,
        r.operation,
        r.rights,
        r.place,
        r.source,
        r.via,
        r.depth,
        r.request,
    ];
}

#[unsafe(no_mangle)]
pub extern "C" fn kernel_request_at(t: &[u32], j: usize, out: &mut [u32; REQUEST_COLUMNS])
    ensures read { ReadsRequest t.now j out.new }
    ensures other { Unless (IsTables t.now × (j < REQUESTS)) (out.new ≡ out.old) }
{
    if t.len() != TABLES {
        return;
    }
    if REQUESTS <= j {
        return;
    }
    let v = read::request_at(t, j);
    let items = v.items;
    *out = [
        v.number, v.port, v.asker, v.fetched, items[0], items[1], items[2], items[3],
    ];
}

#[unsafe(no_mangle)]
pub extern "C" fn kernel_next_of(t: &[u32]) -> u32
    ensures read { IsTables t.now → result ≡ get_or t.now NEXT 0 }
    ensures other { Unless (IsTables t.now) (result ≡ 0) }
{
    if t.len() != TABLES {
        return 0;
    }
    read::next_of(t)
}

#[unsafe(no_mangle)]
pub extern "C" fn kernel_listed(p: &[u32], n: u32) -> bool
    ensures listed { IsRecords p.now → result ≡ is_listed (records_in p.now) n }
    ensures other { Unless (IsRecords p.now) (result ≡ false) }
{
    if p.len() != RECORDS {
        return false;
    }
    records::listed(p, n)
}

// The records of one run, stored in the other.
#[unsafe(no_mangle)]
pub extern "C" fn kernel_records(from: &[u32], to: &mut [u32])
    ensures stored { StoresRecords from.now to.old to.new }
    ensures other { RecordsStay from.now to.old to.new }
{
    if from.len() != RECORDS {
        return;
    }
    if to.len() != RECORDS {
        return;
    }
    let ps = records::load(from);
    records::store(ps, to);
}
