// Lines across parts: a byte is kept of the line begun; the lines of a text are counted.
ghost use Rattle.std.specs.Prelude.{◌≡◌, length};
ghost use Rattle.text.specs.Opening.{lines_of};
ghost use Rattle.feed.specs.vocabulary.Buffers.{HasRoom, KeepsByte};

use crate::Kept;
use text::kept_lines;
use text::opening_lines::line_end;

// One more byte of the line begun, if it has room.
// Ruled out: 255 bytes kept, so that the longest call line is refused; a byte over the opening's text.
pub fn keep_byte(kept: &mut [u8], k: Kept, b: u8) -> Kept
    requires { HasRoom k kept.old }
    ensures { KeepsByte b k kept.old result kept.new }
{
    let line = kept_lines::keep_byte(&mut kept[k.text..], k.line, b);
    Kept { line, ..k }
}

// How many lines a text has. Ruled out: a last line without its line feed is not counted.
pub fn count_lines(text: &[u8]) -> usize
    ensures { result ≡ length (lines_of text.now) }
{
    let mut at = 0;
    let mut n = 0;
    // a while: at goes on by a whole line, whose end is looked for
    while at < text.len() {
        at = line_end(text, at);
        n += 1;
    }
    n
}
