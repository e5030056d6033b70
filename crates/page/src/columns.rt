// Texts and numbers in the columns lent for them: every column is written (specs/Page.antt).
ghost use Rattle.std.specs.Prelude.{◌≡◌, ◌<◌, length};
ghost use Rattle.text.specs.Answers.{digits_of};
ghost use Rattle.page.specs.Page.{left_in, right_in};
ghost use Rattle.page.specs.vocabulary.Columns.{byte_or_space, digit_or_space};

use text::replies::last_digit;

// The byte of a column: that of the text, or a space after it.
fn byte_or_space(text: &[u8], i: usize) -> u8
    ensures { result ≡ byte_or_space text.now i }
{
    if i < text.len() {
        return text[i];
    }
    b' '
}

// A text from the first column on, spaces after it.
// Ruled out: a column that is left as it was; a text that begins one column further on.
pub fn put_left(columns: &mut [u8], text: &[u8])
    ensures { columns.new ≡ left_in (length columns.old) text.now }
{
    // by index: the text may be shorter than the columns, or longer
    for i in 0..columns.len() {
        columns[i] = byte_or_space(text, i);
    }
}

// The byte of a column before the last: a space where nothing is left of the number.
fn digit_or_space(left: u64) -> u8
    ensures { result ≡ digit_or_space left }
{
    if left == 0 {
        return b' ';
    }
    last_digit(left)
}

// A number up to the last column, spaces before its first digit; where it has more digits than columns, the last ones.
// Ruled out: a number from the first column on; a 0 before its first digit; nothing for 0.
pub fn put_right(columns: &mut [u8], n: u32)
    requires { 0 < length columns.old }
    ensures { columns.new ≡ right_in (length columns.old) (digits_of n) }
{
    let value = u64::from(n);
    let last = columns.len() - 1;
    columns[last] = last_digit(value);
    let mut left = value / 10;
    for i in (0..last).rev() {
        columns[i] = digit_or_space(left);
        left /= 10;
    }
}
