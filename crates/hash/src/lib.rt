// SHA-256 of a message of at most 55 bytes, which with its padding is one block.
//
// Contracts cite specs/: Padding and Sha256 are FIPS 180-4, for messages of any length, and Answer is document 01's answer.
// The parts, a last block and a digest, are for the crates that hash block by block.

#![tactic(auto)]

ghost use Rattle.std.specs.Prelude.{◌≡◌, ◌≤◌, length, take};
ghost use Rattle.words.specs.Words.{words_of, bytes_of_all};
ghost use Rattle.hash.specs.Padding.{last_block};
ghost use Rattle.hash.specs.Answer.{answer_of, hash_answer};

use refusals::Refusal;

// The bytes of the chaining words, in order.
pub fn digest(h: [u32; 8]) -> [u8; 32]
    ensures { result ≡ bytes_of_all h }
{
    let mut d = [0; 32];
    for (i, w) in h.iter().enumerate() {
        words::put(&mut d, 4 * i, *w);
    }
    d
}

// The sixteen words of a block.
#[tactic(auto, using(words::proofs::Fields::words_inside))]
pub fn words_of(b: [u8; 64]) -> [u32; 16]
    ensures { result ≡ words_of 16 b }
{
    words::words_at(&b, 0)
}

// The bytes of the last block of a message: the message, 80h, zeros, and the whole length in bits, that of the bytes
// before included. 80h is stored first: where a copy follows zeros at once, the compiler calls memset for the zeros that
// are left, and the host's library uses memcpy alone.
fn padded(before: u8, message: &[u8]) -> [u8; 64]
    requires { length message.now ≤ 55 }
    ensures { result ≡ last_block before message.now }
{
    let n = message.len();
    let bits = 8 * (before as usize + n);
    let mut b = [0; 64];
    b[n] = 0x80;
    words::place(message, 0, &mut b);
    words::put(&mut b, 60, bits as u32);
    b
}

// The last block of a message, of which `before` bytes filled earlier blocks. At most 55 bytes fit: of a longer slice, its
// first 55.
pub fn last_block(before: u8, message: &[u8]) -> [u32; 16]
    ensures { result ≡ words_of 16 (last_block before (take 55 message.now)) }
{
    if message.len() <= 55 {
        return words_of(padded(before, message));
    }
    words_of(padded(before, &message[..55]))
}

// SHA-256 of a message. Refusal 11: it is above 55 bytes.
#[tactic(auto, unfolding(crate::specs::Answer::hash_answer, words::specs::Rows::first_of, words::specs::Choice::pick), using(crate::proofs::OneBlock::one_block))]
pub fn hash(message: &[u8]) -> Result<[u8; 32], Refusal>
    ensures { answer_of result ≡ hash_answer message.now }
{
    if 55 < message.len() {
        return Err(Refusal::MessageLength);
    }
    let h = sha256::block(sha256::initial(), last_block(0, message));
    Ok(digest(h))
}
