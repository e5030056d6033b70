// Marks of slots in bits: tested, set and counted. Bit i % 64 of word i / 64 is the mark of slot i.
ghost use Rattle.std.specs.Prelude.{true, false, ◌≡◌, ◌*◌, ◌%◌, ◌^◌, ◌≤◌, ◌<◌, get_or, set};
ghost use Rattle.std.specs.Int.Count.{ones};
ghost use Rattle.rows.specs.vocabulary.Sizes.{ROWS};
ghost use Rattle.changes.specs.vocabulary.Bits.{BITS, WORDS, EndsWord, marks_in, gones};

use rows::layout::ROWS;

// the bits of a word; the words that have one for each slot, 128 bytes: fixed words, since the kernel has no heap
pub const BITS: usize = 64;

pub const WORDS: usize = ROWS / BITS;

pub type SlotBits = [u64; WORDS];

// Where the slots from i on that have their marks in one word end, among the first count.
pub fn word_end(i: usize, count: usize) -> usize
    requires { (i < count) × (count ≤ ROWS) }
    ensures { EndsWord i count result }
{
    ((i / BITS + 1) * BITS).min(count)
}

// Whether slot i is marked.
// Ruled out: the mark of the neighbour; that of the same bit in another word.
pub fn is_set(marks: &SlotBits, i: usize) -> bool
    requires { i < ROWS }
    ensures { result ≡ get_or (marks_in marks.now) i false }
{
    (marks[i / BITS] >> (i % BITS)) % 2 == 1
}

// Marks slot i, whether it was marked or not.
// Ruled out: a mark that is set twice is taken back; another slot's mark changes.
pub fn set(marks: &mut SlotBits, i: usize)
    requires { i < ROWS }
    ensures { marks_in marks.new ≡ set (marks_in marks.old) i true }
{
    marks[i / BITS] = marks[i / BITS] | (1u64 << (i % BITS));
}

// How many bits of a word are set.
pub fn count_bits(w: u64) -> usize
    ensures within { result ≤ BITS }
    ensures counted { result ≡ ones (w % 2 ^ BITS) }
{
    w.count_ones() as usize
}

// How many of the slots of the first words are marked.
fn count_words(marks: &SlotBits, words: usize) -> usize
    requires { words ≤ WORDS }
    ensures { result ≡ gones (marks_in marks.now) (words * BITS) }
{
    let mut total = 0;
    for k in 0..words {
        total += count_bits(marks[k]);
    }
    total
}

// How many of the first slots are marked.
// Ruled out: a marked slot past them is counted; the last word is left out.
pub fn count(marks: &SlotBits, slots: usize) -> usize
    requires { slots ≤ ROWS }
    ensures { result ≡ gones (marks_in marks.now) slots }
{
    let whole = count_words(marks, slots / BITS);
    let rest = slots % BITS;
    if rest == 0 {
        return whole;
    }
    whole + count_bits(marks[slots / BITS] % (1u64 << rest))
}
