// A set of numbers as a row of bits, 64 bits to a word, and a summary of it: a row with a bit for each word that tells whether
// one of the word's bits is set.
ghost use Rattle.std.specs.Prelude.{◌*◌, ◌/◌, ◌^◌, ◌<◌, true, false, length};
ghost use Rattle.ready_heap.specs.Bits.{IsNextInWord, IsNext, Puts, IsSummary};

/// Bits of a word.
pub(crate) const BITS: usize = u64::BITS as usize;

/// Sets a bit.
fn set_bit(words: &mut [u64], k: usize)
    requires { k / 64 < length words.old }
    ensures { Puts k true words.old words.new }
{
    words[k / BITS] |= 1 << (k % BITS);
}

/// Clears a bit.
fn clear_bit(words: &mut [u64], k: usize)
    requires { k / 64 < length words.old }
    ensures { Puts k false words.old words.new }
{
    words[k / BITS] &= !(1 << (k % BITS));
}

/// Sets a bit of a row and that of its word in the summary.
pub(crate) fn put_in(words: &mut [u64], summary: &mut [u64], k: usize)
    requires inside { k / 64 < length words.old }
    requires summary { IsSummary words.old summary.old }
    ensures put { Puts k true words.old words.new }
    ensures summary { IsSummary words.new summary.new }
{
    set_bit(words, k);
    set_bit(summary, k / BITS);
}

/// Clears a bit of a row, and that of its word in the summary if it was the word's last one.
pub(crate) fn take_out(words: &mut [u64], summary: &mut [u64], k: usize)
    requires inside { k / 64 < length words.old }
    requires summary { IsSummary words.old summary.old }
    ensures put { Puts k false words.old words.new }
    ensures summary { IsSummary words.new summary.new }
{
    clear_bit(words, k);
    if words[k / BITS] == 0 {
        clear_bit(summary, k / BITS);
    }
}

/// The first set bit of a word from one on.
fn next_in_word(word: u64, from: u32) -> Option<u32>
    requires { from < 64 }
    ensures { IsNextInWord word from result }
{
    let left = word & u64::MAX << from;
    if left == 0 {
        return None;
    }
    Some(left.trailing_zeros())
}

/// The first set bit of a row from one on. It looks at one word after another.
pub(crate) fn next_bit(words: &[u64], from: usize) -> Option<usize>
    requires { length words.now < 2 ^ 57 }
    ensures { IsNext words.now from result }
{
    let mut bit = (from % BITS) as u32;
    for w in from / BITS..words.len() {
        if let Some(k) = next_in_word(words[w], bit) {
            return Some(BITS * w + k as usize);
        }
        bit = 0;
    }
    None
}

/// The first set bit of a row from one on. It looks at one word of the row, and at another that has such a bit.
pub(crate) fn first_from(words: &[u64], summary: &[u64], from: usize) -> Option<usize>
    requires few { length words.now < 2 ^ 57 }
    requires short { length summary.now < 2 ^ 57 }
    requires summary { IsSummary words.now summary.now }
    ensures { IsNext words.now from result }
{
    let word = from / BITS;
    if word >= words.len() {
        return None;
    }
    if let Some(k) = next_in_word(words[word], (from % BITS) as u32) {
        return Some(BITS * word + k as usize);
    }
    match next_bit(summary, word + 1) {
        Some(next) => next_bit(words, BITS * next),
        None => None,
    }
}
