// HMAC with SHA-256, of a message of at most 55 bytes under a 32-byte key.
//
// It takes four blocks, the quarters: two for the inner hash and two for the outer. The whole call runs the four in turn, and
// a device that does a block a step runs the same four. Contracts cite specs/: Hmac is FIPS 198-1, Quarters the four blocks.
//
// kept: matches on enums that pick a value or a call, since each arm is proved by itself and none can be left out.

#![tactic(auto)]

ghost use Rattle.std.specs.Prelude.{◌≡◌, length};
ghost use Rattle.words.specs.Words.{bytes_of_all};
ghost use Rattle.hash.specs.Answer.{answer_of};
ghost use Rattle.hmac.specs.Quarters.{key_block, text_block, block_of, start_of, chain_after};
ghost use Rattle.hmac.specs.Answer.{hmac_answer};

use refusals::Refusal;

// The four blocks of an HMAC, in their order.
#[derive(Clone, Copy)]
pub enum Quarter {
    KeyIpad,
    Message,
    KeyOpad,
    InnerDigest,
}

// The block of a key: its bytes and zeros up to 64, each xored with the pad.
fn key_block(key: [u8; 32], pad: u8) -> [u32; 16]
    ensures { result ≡ key_block pad key }
{
    let mut b = [pad; 64];
    for (i, byte) in key.iter().enumerate() {
        b[i] = *byte ^ pad;
    }
    hash::words_of(b)
}

// The block of the inner digest. Its words are at hand, so it is not spread into bytes to be read back: the words, the
// mark, zeros, and the length in bits of 64 bytes of key and 32 of digest.
fn digest_block(inner: [u32; 8]) -> [u32; 16]
    ensures { result ≡ text_block (bytes_of_all inner) }
{
    [
        inner[0], inner[1], inner[2], inner[3], inner[4], inner[5], inner[6], inner[7], 0x80000000,
        0, 0, 0, 0, 0, 0, 768,
    ]
}

// The sixteen words that a quarter hashes. It looks only at what its block is made of: the key, the message, or the
// chaining words of the inner digest.
fn quarter_block(q: Quarter, key: [u8; 32], message: &[u8], inner: [u32; 8]) -> [u32; 16]
    ensures { result ≡ block_of q key message.now inner }
{
    match q {
        Quarter::KeyIpad => key_block(key, 0x36),
        Quarter::Message => hash::last_block(64, message),
        Quarter::KeyOpad => key_block(key, 0x5c),
        Quarter::InnerDigest => digest_block(inner),
    }
}

// The chaining words that a quarter starts from.
fn quarter_start(q: Quarter, chain: [u32; 8]) -> [u32; 8]
    ensures { result ≡ start_of q chain }
{
    match q {
        Quarter::KeyIpad | Quarter::KeyOpad => sha256::initial(),
        Quarter::Message | Quarter::InnerDigest => chain,
    }
}

// The chaining words after a quarter: one SHA-256 block.
#[tactic(auto, unfolding(crate::specs::Quarters::chain_after))]
pub fn chain_after(
    q: Quarter,
    key: [u8; 32],
    message: &[u8],
    chain: [u32; 8],
    inner: [u32; 8],
) -> [u32; 8]
    ensures { result ≡ chain_after q key message.now chain inner }
{
    let start = quarter_start(q, chain);
    let m = quarter_block(q, key, message, inner);
    sha256::block(start, m)
}

// The HMAC of a message under a key. Refusal 6: the key is not 32 bytes; 11: the message is above 55 bytes.
#[tactic(auto, unfolding(crate::specs::Answer::hmac_answer, words::specs::Rows::first_of, words::specs::Choice::pick))]
pub fn hmac(key: &[u8], message: &[u8]) -> Result<[u8; 32], Refusal>
    ensures { answer_of result ≡ hmac_answer key.now message.now }
{
    if key.len() != 32 {
        return Err(Refusal::InputLength);
    }
    if 55 < message.len() {
        return Err(Refusal::MessageLength);
    }
    let k = words::part(key, 0);
    let any = sha256::initial();
    let key_ipad = chain_after(Quarter::KeyIpad, k, message, any, any);
    let inner = chain_after(Quarter::Message, k, message, key_ipad, any);
    let key_opad = chain_after(Quarter::KeyOpad, k, message, any, any);
    let outer = chain_after(Quarter::InnerDigest, k, message, key_opad, inner);
    Ok(hash::digest(outer))
}
