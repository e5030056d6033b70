// Look-ups. They answer the slot plus 1, and 0 for none and for words of another length: C has no Option.
ghost use Rattle.std.specs.Prelude.{◌≡◌, ◌≤◌};
ghost use Rattle.rows.specs.Layout.{rows_in, requests_in};
ghost use Rattle.rows.specs.vocabulary.Slots.{found_slot};
ghost use Rattle.rows.specs.vocabulary.Finds.{FindsRow, FindsRequest, FindsOpen};
ghost use Rattle.rows.specs.vocabulary.Sizes.{IsTables};
ghost use Rattle.test_exports.specs.vocabulary.Exports.{Unless};

use rows::find;
use rows::layout::TABLES;

#[unsafe(no_mangle)]
pub extern "C" fn kernel_rows_in(t: &[u32]) -> usize
    ensures counted { IsTables t.now → result ≡ rows_in t.now }
    ensures other { Unless (IsTables t.now) (result ≡ 0) }
{
    if t.len() != TABLES {
        return 0;
    }
    find::rows_in(t)
}

#[unsafe(no_mangle)]
pub extern "C" fn kernel_requests_in(t: &[u32]) -> usize
    ensures counted { IsTables t.now → result ≡ requests_in t.now }
    ensures other { Unless (IsTables t.now) (result ≡ 0) }
{
    if t.len() != TABLES {
        return 0;
    }
    find::requests_in(t)
}

#[unsafe(no_mangle)]
pub extern "C" fn kernel_row_slot(t: &[u32], n: u32) -> usize
    ensures within { result ≤ rows_in t.now }
    ensures found { FindsRow t.now n (found_slot result) }
    ensures other { Unless (IsTables t.now) (result ≡ 0) }
{
    if t.len() != TABLES {
        return 0;
    }
    let Some(i) = find::row_slot(t, n) else {
        return 0;
    };
    i + 1
}

#[unsafe(no_mangle)]
pub extern "C" fn kernel_request_slot(t: &[u32], q: u32) -> usize
    ensures within { result ≤ requests_in t.now }
    ensures found { FindsRequest t.now q (found_slot result) }
    ensures other { Unless (IsTables t.now) (result ≡ 0) }
{
    if t.len() != TABLES {
        return 0;
    }
    let Some(j) = find::request_slot(t, q) else {
        return 0;
    };
    j + 1
}

#[unsafe(no_mangle)]
pub extern "C" fn kernel_open_on(t: &[u32], c: u32) -> usize
    ensures within { result ≤ requests_in t.now }
    ensures found { FindsOpen t.now c (found_slot result) }
    ensures other { Unless (IsTables t.now) (result ≡ 0) }
{
    if t.len() != TABLES {
        return 0;
    }
    let Some(j) = find::open_on(t, c) else {
        return 0;
    };
    j + 1
}
