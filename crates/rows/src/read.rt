// The words of a slot as a row or a request, and the next number.
ghost use Rattle.std.specs.Prelude.{◌≡◌, ◌<◌, slice_index};
ghost use Rattle.rows.specs.Layout.{request_at, raw_row};
ghost use Rattle.rows.specs.vocabulary.Sizes.{ROWS, REQUESTS, NEXT, IsTables};

use crate::layout::{
    DEPTH, KIND, NEXT, NUMBER, OBJECT, OPERATION, PLACE, Q_ASKER, Q_FETCHED, Q_ITEM_2, Q_ITEM_3,
    Q_ITEM_4, Q_ITEMS, Q_NUMBER, Q_PORT, REQUEST, RIGHTS, SOURCE, VIA,
};
use crate::{Request, Row};

// The row at slot i, its sources as slots plus 1.
// Ruled out: a word of another column; a word of the next slot.
pub fn row_at(t: &[u32], i: usize) -> Row
    requires { IsTables t.now × (i < ROWS) }
    ensures { result ≡ raw_row t.now i }
{
    Row {
        number: t[NUMBER + i],
        kind: t[KIND + i],
        object: t[OBJECT + i],
        operation: t[OPERATION + i],
        rights: t[RIGHTS + i],
        place: t[PLACE + i],
        source: t[SOURCE + i],
        via: t[VIA + i],
        depth: t[DEPTH + i],
        request: t[REQUEST + i],
    }
}

// The request at slot j.
// Ruled out: items in another order; the asker for the port.
pub fn request_at(t: &[u32], j: usize) -> Request
    requires { IsTables t.now × (j < REQUESTS) }
    ensures { result ≡ request_at t.now j }
{
    let items = [
        t[Q_ITEMS + j],
        t[Q_ITEM_2 + j],
        t[Q_ITEM_3 + j],
        t[Q_ITEM_4 + j],
    ];
    Request {
        number: t[Q_NUMBER + j],
        port: t[Q_PORT + j],
        asker: t[Q_ASKER + j],
        fetched: t[Q_FETCHED + j],
        items: items,
    }
}

// The next number.
// Ruled out: the last item word before it; 0 where it is not.
pub fn next_of(t: &[u32]) -> u32
    requires { IsTables t.now }
    ensures { result ≡ slice_index t.now NEXT }
{
    t[NEXT]
}
