// Words in a buffer of bytes: four bytes each, the highest first.
//
// No public function has a `requires`. Each says what it answers and what a lent buffer holds after it, on
// every input. What does not fit is not written.
#![tactic(auto)]

ghost use Rattle.std.specs.Prelude.{◌≡◌, ◌+◌, ◌<◌, ◌≤◌, ◌^◌, min, length};
ghost use Rattle.std.proofs.lemmas.List.Edits.{sets};
ghost use Rattle.std.proofs.Math.Seq.{slice};
ghost use Rattle.wire.specs.Words.{bytes_into, four_bytes, word_from, words_into};

// The word of the four bytes from a place on.
fn word_from(bytes: &[u8], at: usize) -> u32
    requires { at + 4 ≤ length bytes.now }
    ensures { result ≡ word_from bytes.now at }
{
    u32::from_be_bytes([bytes[at], bytes[at + 1], bytes[at + 2], bytes[at + 3]])
}

// Stores a word as four bytes.
fn put_word(bytes: &mut [u8], at: usize, w: u32)
    requires { at + 4 ≤ length bytes.old }
    ensures { bytes.new ≡ sets bytes.old at (four_bytes w) }
{
    bytes[at..at + 4].copy_from_slice(&w.to_be_bytes());
}

// Fills the words with the whole words of the bytes, as many as there is room for, and answers how
// many.
pub fn words_of(bytes: &[u8], words: &mut [u32]) -> usize
    ensures count { result ≡ length (words_into words.old bytes.now) }
    ensures stored { words.new
        ≡ sets words.old 0 (words_into words.old bytes.now) }
{
    let n = words.len().min(bytes.len() / 4);
    for i in 0..n {
        words[i] = word_from(bytes, 4 * i);
    }
    n
}

// Fills the bytes with the words, as many whole words as there is room for, and answers how many
// bytes that is.
pub fn bytes_of(words: &[u32], bytes: &mut [u8]) -> usize
    ensures count { result ≡ length (bytes_into bytes.old words.now) }
    ensures stored { bytes.new
        ≡ sets bytes.old 0 (bytes_into bytes.old words.now) }
{
    let n = words.len().min(bytes.len() / 4);
    for i in 0..n {
        put_word(bytes, 4 * i, words[i]);
    }
    4 * n
}

// Moves the bytes from a place up to an end to the front, and answers how many they are.
pub fn carry(bytes: &mut [u8], from: usize, end: usize) -> usize
    ensures count { result ≡ length (slice from end bytes.old) }
    ensures moved { bytes.new ≡ sets bytes.old 0 (slice from end bytes.old) }
{
    let last = end.min(bytes.len());
    if last <= from {
        return 0;
    }
    bytes.copy_within(from..last, 0);
    last - from
}
