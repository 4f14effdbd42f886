// Words and bytes: a word is four bytes, high byte first, everywhere in this project; and bytes that are copied in a row.
//
// Contracts cite specs/Words.antt, and specs/Table.antt for lists that are filled place by place.

#![tactic(auto)]

ghost use Rattle.std.specs.Prelude.{◌≡◌, ◌+◌, ◌<◌, ◌≤◌, length, get_or};
ghost use Rattle.std.proofs.lemmas.List.Edits.{sets};
ghost use Rattle.words.specs.Table.{field};
ghost use Rattle.words.specs.Words.{word_of, bytes_of, word_or0, with_word, with_bytes, words_at};

// The word of four bytes.
pub fn word(a: u8, b: u8, c: u8, d: u8) -> u32
    ensures { result ≡ word_of a b c d }
{
    u32::from_be_bytes([a, b, c, d])
}

// The four bytes of a word.
pub fn bytes(w: u32) -> [u8; 4]
    ensures { result ≡ bytes_of w }
{
    w.to_be_bytes()
}

// The byte at a place of a slice, or 0 past its end.
pub fn byte(s: &[u8], at: usize) -> u8
    ensures { result ≡ get_or s.now at 0 }
{
    s.get(at).copied().unwrap_or(0)
}

// The word at a place of a slice, or 0 where its four bytes are not all inside.
#[tactic(auto, unfolding(crate::specs::Choice::pick), using(crate::proofs::Inside::get_opens, crate::proofs::Inside::get_outside))]
pub fn get(s: &[u8], at: usize) -> u32
    ensures { result ≡ word_or0 s.now at }
{
    match s.get(at..) {
        Some([a, b, c, d, ..]) => word(*a, *b, *c, *d),
        _ => 0,
    }
}

// Stores bytes from a place of a slice on: these bytes and no other, and nothing where they are not all inside.
#[tactic(auto, using(crate::proofs::Inside::place_split, crate::proofs::Inside::place_outside))]
pub fn place(bytes: &[u8], at: usize, out: &mut [u8])
    ensures { out.new ≡ with_bytes out.old at bytes.now }
{
    if at <= out.len() && bytes.len() <= out.len() - at {
        out[at..at + bytes.len()].copy_from_slice(bytes);
    }
}

// Stores a word at a place of a slice: these four bytes and no other, and nothing where they are not all inside.
#[tactic(auto, using(crate::proofs::Inside::put_placed))]
pub fn put(s: &mut [u8], at: usize, w: u32)
    ensures { s.new ≡ with_word s.old at w }
{
    place(&bytes(w), at, s);
}

// Fills a buffer with the bytes that start at a place of a slice, and with 0 past its end.
pub fn copy(s: &[u8], at: usize, out: &mut [u8])
    ensures { out.new ≡ field at (length out.old) s.now }
{
    for (i, b) in out.iter_mut().enumerate() {
        *b = byte(s, at.saturating_add(i));
    }
}

// The bytes that start at a place of a slice, as an array, with 0 past its end.
pub fn part<const N: usize>(s: &[u8], at: usize) -> [u8; N]
    ensures { result ≡ field at N s.now }
{
    let mut bytes = [0; N];
    copy(s, at, &mut bytes);
    bytes
}

// The words that start at a place of a slice, as an array; a word is 0 where its four bytes are not all inside.
pub fn words_at<const N: usize>(s: &[u8], at: usize) -> [u32; N]
    ensures { result ≡ words_at at N s.now }
{
    let mut words = [0; N];
    for (i, w) in words.iter_mut().enumerate() {
        *w = get(s, at.saturating_add(4 * i));
    }
    words
}
