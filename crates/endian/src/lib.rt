// Elements of a fixed size in bytes, the upper byte first.
#![tactic(auto)]

ghost use Rattle.std.specs.Prelude.{◌∷◌, [], ◌≡◌, ◌*◌, ◌+◌, ◌≤◌, ℕ, List, length};
ghost use Rattle.std.proofs.lemmas.List.Edits.{sets};
ghost use Rattle.endian.specs.Bytes as def;
ghost use Rattle.endian.specs.Laws.{Laid, Reads, words_laid, words_read};

// How elements stand in bytes, one behind the other.
pub trait Packed {
    type Item: Copy;

    const SIZE: usize;

    ghost SIZE: { ℕ };

    // The element at an offset, as many as asked for from an offset on, and the bytes of elements.
    ghost one: { List ℕ → ℕ → Self.Item };

    ghost many: { List ℕ → ℕ → ℕ → List Self.Item };

    ghost stored: { List Self.Item → List ℕ };

    fn element_from(bytes: &[u8], at: usize) -> Self::Item
        requires { at + SIZE ≤ length bytes.now }
        ensures { result ≡ one bytes.now at };

    fn put_element(bytes: &mut [u8], at: usize, element: Self::Item)
        requires { at + SIZE ≤ length bytes.old }
        ensures { bytes.new ≡ sets bytes.old at (stored (element ∷ [])) };

    ghost reads: { Reads SIZE one many };

    ghost laid: { Laid SIZE stored };
}

// The elements from an offset on, as many as `elements` has.
pub fn elements_from<P: Packed>(bytes: &[u8], at: usize, elements: &mut [P::Item])
    requires { at + P.SIZE * length elements.old ≤ length bytes.now }
    ensures { elements.new ≡ P.many bytes.now at (length elements.old) }
{
    for (k, element) in elements.iter_mut().enumerate() {
        *element = P::element_from(bytes, at + P::SIZE * k);
    }
}

// Elements stored from an offset on.
pub fn put_elements<P: Packed>(bytes: &mut [u8], at: usize, elements: &[P::Item])
    requires { at + P.SIZE * length elements.now ≤ length bytes.old }
    ensures { bytes.new ≡ sets bytes.old at (P.stored elements.now) }
{
    for (k, element) in elements.iter().enumerate() {
        P::put_element(bytes, at + P::SIZE * k, *element);
    }
}

// Words, two bytes for each.
pub struct Words;

impl Packed for Words {
    type Item = u16;

    const SIZE: usize = 2;

    ghost SIZE = { 2 };

    ghost one = { def.word_from };

    ghost many = { def.words_from };

    ghost stored = { def.word_bytes };

    ghost reads = { words_read };

    ghost laid = { words_laid };

    fn element_from(bytes: &[u8], at: usize) -> u16 {
        word_from(bytes, at)
    }

    fn put_element(bytes: &mut [u8], at: usize, word: u16) {
        put_word(bytes, at, word);
    }
}

// The word at an offset.
pub fn word_from(bytes: &[u8], at: usize) -> u16
    requires { at + 2 ≤ length bytes.now }
    ensures { result ≡ def.word_from bytes.now at }
{
    u16::from_be_bytes([bytes[at], bytes[at + 1]])
}

// A word stored at an offset.
#[tactic(auto, unfolding(crate::specs::Bytes::word_bytes))]
pub fn put_word(bytes: &mut [u8], at: usize, w: u16)
    requires { at + 2 ≤ length bytes.old }
    ensures { bytes.new ≡ sets bytes.old at (def.word_bytes (w ∷ [])) }
{
    put_bytes(bytes, at, &w.to_be_bytes());
}

// Bytes stored from an offset on.
pub fn put_bytes(bytes: &mut [u8], at: usize, from: &[u8])
    requires { at + length from.now ≤ length bytes.old }
    ensures { bytes.new ≡ sets bytes.old at from.now }
{
    bytes[at..at + from.len()].copy_from_slice(from);
}
