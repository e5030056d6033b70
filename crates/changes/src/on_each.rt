// What is done to each of the columns of one size that stand one after the other.
ghost use Rattle.std.specs.Prelude.{◌≡◌, ℕ, ◌*◌, List, length};
ghost use Rattle.changes.specs.vocabulary.Marks.{on_parts};

// What is done to one column.
pub(crate) trait OnColumn {
    // the lengths of columns that it can be done to
    ghost fits: { Self → ℕ → Type 0 };

    ghost does: { Self → List ℕ → List ℕ };

    fn on(&self, column: &mut [u32])
        requires { fits self.now (length column.old) }
        ensures { column.new ≡ does self.now column.old };
}

// Does it to each of them.
pub(crate) fn on_each<C: OnColumn>(part: &mut [u32], size: usize, columns: usize, c: &C)
    requires sizes { length part.old ≡ columns * size }
    requires fits { C.fits c.now size }
    ensures { part.new ≡ on_parts (C.does c.now) size columns part.old }
{
    for k in 0..columns {
        let a = k * size;
        c.on(&mut part[a..a + size]);
    }
}
