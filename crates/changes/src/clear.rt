// Words set to 0 in columns that stand one after the other: row by row where they are few, column by column where not.
ghost use Rattle.std.specs.Prelude.{◌≡◌, ◌+◌, ◌*◌, ◌≤◌, ◌<◌, length};
ghost use Rattle.changes.specs.vocabulary.Marks.{cleared, on_parts};

use crate::on_each::{OnColumn, on_each};

// so many rows or more are cleared column by column
const MANY: usize = 4;

// Sets the words from one position up to another to 0.
#[derive(Clone, Copy)]
struct Clear {
    from: usize,
    to: usize,
}

impl OnColumn for Clear {
    ghost fits = { λ x k. (x.from ≤ x.to) × (x.to ≤ k) };

    ghost does = { λ x. cleared x.from x.to };

    fn on(&self, column: &mut [u32]) {
        column[self.from..self.to].fill(0);
    }
}

// Sets the words of one row to 0.
fn clear_row(part: &mut [u32], size: usize, columns: usize, row: usize)
    requires { (length part.old ≡ columns * size) × (row < size) }
    ensures { part.new ≡ on_parts (cleared row (row + 1)) size columns part.old }
{
    for k in (row..columns * size).step_by(size) {
        part[k] = 0;
    }
}

// Sets the words of the rows from one up to another to 0.
fn clear_rows(part: &mut [u32], size: usize, columns: usize, from: usize, to: usize)
    requires { (length part.old ≡ columns * size) × (from ≤ to) × (to ≤ size) }
    ensures { part.new ≡ on_parts (cleared from to) size columns part.old }
{
    for i in from..to {
        clear_row(part, size, columns, i);
    }
}

// Sets the words from one position up to another to 0 in each of the columns of one size.
// Ruled out: a word of the last row stays; a word of another row goes.
pub fn clear_columns(part: &mut [u32], size: usize, columns: usize, from: usize, to: usize)
    requires { (length part.old ≡ columns * size) × (from ≤ to) × (to ≤ size) }
    ensures { part.new ≡ on_parts (cleared from to) size columns part.old }
{
    if to - from < MANY {
        clear_rows(part, size, columns, from, to);
    } else {
        on_each(part, size, columns, &Clear { from, to });
    }
}
