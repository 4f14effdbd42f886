// Bytes as hexadecimal digits, upper case, the high digit first, and back. Contracts cite specs/Hex.antt.
//
// kept: the ranges of the digits. `char::from_digit` gives lower case and `char::to_digit` takes it, as the kit's crate `hex` does where
// it needs no heap; here digits are in upper case alone.

#![tactic(auto)]

ghost use Rattle.std.specs.Prelude.{◌≡◌, ◌+◌, ◌*◌, ◌/◌, ◌<◌, ◌≤◌, ◌++◌, IfSome, length, drop};
ghost use Rattle.words.specs.Table.{table};
ghost use Rattle.words.specs.Words.{with_front};
ghost use Rattle.hexadecimal.specs.Hex.{digit_of, digits_of, digits_of_all, with_digits, value_of, all_digits, byte_of, byte_at, readable};

// The character of a digit.
#[tactic(auto, unfolding(words::specs::Choice::pick))]
fn digit(n: u8) -> u8
    requires { n < 16 }
    ensures { result ≡ digit_of n }
{
    match n {
        0..=9 => b'0' + n,
        _ => b'A' + (n - 10),
    }
}

// The two digits of a byte.
pub fn digits(byte: u8) -> [u8; 2]
    ensures { result ≡ digits_of byte }
{
    [digit(byte / 16), digit(byte % 16)]
}

// Fills the front of a buffer that has room with the digits of some bytes.
#[tactic(auto, unfolding(words::specs::Table::spread))]
fn fill(bytes: &[u8], out: &mut [u8])
    requires { 2 * length bytes.now ≤ length out.old }
    ensures { out.new ≡ digits_of_all bytes.now ++ drop (2 * length bytes.now) out.old }
{
    for (i, byte) in bytes.iter().enumerate() {
        out[2 * i..2 * i + 2].copy_from_slice(&digits(*byte));
    }
}

// Writes the digits of some bytes to the front of a buffer, and leaves the rest. A buffer too short for all of them is left as
// it is.
#[tactic(auto, unfolding(crate::specs::Hex::with_digits, words::specs::Choice::pick))]
pub fn write(bytes: &[u8], out: &mut [u8])
    ensures { out.new ≡ with_digits bytes.now out.old }
{
    if bytes.len() <= out.len() / 2 {
        fill(bytes, out);
    }
}

// The value of a digit's character; none of any other character.
#[tactic(auto, unfolding(crate::specs::Hex::value_of, words::specs::Choice::pick))]
fn value_of(character: u8) -> Option<u8>
    ensures value { result ≡ value_of character }
    ensures bound { IfSome result (λ digit. digit < 16) }
{
    match character {
        b'0'..=b'9' => Some(character - b'0'),
        b'A'..=b'F' => Some(character - b'A' + 10),
        _ => None,
    }
}

// Whether every character is a digit's.
#[tactic(auto, unfolding(crate::specs::Hex::all_digits))]
fn all_digits(text: &[u8]) -> bool
    ensures { result ≡ all_digits text.now }
{
    text.iter().all(|character| value_of(*character).is_some())
}

// The byte of two digits' characters.
fn byte_of(high: u8, low: u8) -> u8
    ensures { result ≡ byte_of high low }
{
    16 * value_of(high).unwrap_or(0) + value_of(low).unwrap_or(0)
}

// Fills the front of a buffer that has room with the bytes of a text of digits, two for each.
#[tactic(auto, unfolding(words::specs::Table::table))]
fn fill_bytes(text: &[u8], out: &mut [u8])
    requires { length text.now / 2 ≤ length out.old }
    ensures { out.new ≡ table (byte_at text.now) (length text.now / 2) ++ drop (length text.now / 2) out.old }
{
    let (pairs, _) = text.as_chunks::<2>();
    for (i, [high, low]) in pairs.iter().enumerate() {
        out[i] = byte_of(*high, *low);
    }
}

// Reads the digits of a text as bytes to the front of a buffer, and leaves the rest; returns how many bytes there are. A text
// that is not all digits, or of an odd number of them, or too long for the buffer, has none.
// kept: 0 for such a text, as the clause says: it comes to the same as the text of no bytes, which is 0 too.
#[tactic(auto, unfolding(crate::specs::Hex::readable, crate::specs::Hex::bytes_in, words::specs::Choice::pick, words::specs::Words::with_front))]
pub fn read(text: &[u8], out: &mut [u8]) -> usize
    ensures value { result ≡ length (readable (length out.old) text.now) }
    ensures out_after { out.new ≡ with_front (readable (length out.old) text.now) out.old }
{
    let bytes = text.len() / 2;
    if out.len() < bytes || text.len() % 2 != 0 || !all_digits(text) {
        return 0;
    }
    fill_bytes(text, out);
    bytes
}
