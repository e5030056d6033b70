// A line that comes byte by byte: what is kept of it (specs/Opening.antt).
ghost use Rattle.std.specs.Prelude.{◌≡◌, [], ◌∷◌, ◌++◌, ◌≤◌, length, take};
ghost use Rattle.text.specs.Opening.{cut};
ghost use Rattle.text.specs.vocabulary.Sizes.{KEPT-LINE};

// the bytes kept of a line: one more than the longest has
pub const KEPT_LINE: usize = 257;

// One more byte after the n bytes kept of a line, if there is room; how many are kept then.
// Ruled out: 255 bytes kept, so that the longest line is refused; a byte kept in the place of the one before it.
pub fn keep_byte(line: &mut [u8], n: usize, b: u8) -> usize
    requires { (KEPT-LINE ≤ length line.old) × (n ≤ KEPT-LINE) }
    ensures kept { take result line.new ≡ cut (take n line.old ++ (b ∷ [])) }
    ensures within { result ≤ KEPT-LINE }
{
    if n == KEPT_LINE {
        return n;
    }
    line[n] = b;
    n + 1
}
