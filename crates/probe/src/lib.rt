// C entries for tests and benchmarks of the hash, and for nothing else: what a driver links is another library.
//
// Each hands over the whole answer of one call, so that C sees the digest of a refused call too.
//
// kept: numbers and lent arrays in the place of a Result, and two entries that differ in what they hash, as C has them.

#![tactic(auto)]

ghost use Rattle.std.specs.Prelude.{◌≡◌};
ghost use Rattle.sha256.specs.Block.{block};
ghost use Rattle.hash.specs.Answer.{answer_of, hash_answer};
ghost use Rattle.hmac.specs.Answer.{hmac_answer};

use refusals::Refusal;

// The chaining words become those after the block m.
#[unsafe(no_mangle)]
pub extern "C" fn probe_block(chain: &mut [u32; 8], m: &[u32; 16])
    ensures { chain.new ≡ block chain.old m.now }
{
    *chain = sha256::block(*chain, *m);
}

// Hands over an answer: its number, and its digest, zeros if it is refused.
fn told(answer: Result<[u8; 32], Refusal>, digest: &mut [u8; 32]) -> u32
    ensures value { result ≡ (answer_of answer).number }
    ensures digest_after { digest.new ≡ (answer_of answer).digest }
{
    *digest = answer.unwrap_or([0; 32]);
    refusals::number_of(answer)
}

// The number of the hash's answer; its digest goes to `digest`.
#[unsafe(no_mangle)]
pub extern "C" fn probe_hash(message: &[u8], digest: &mut [u8; 32]) -> u32
    ensures value { result ≡ (hash_answer message.now).number }
    ensures digest_after { digest.new ≡ (hash_answer message.now).digest }
{
    told(hash::hash(message), digest)
}

// The number of the HMAC's answer; its digest goes to `digest`.
#[unsafe(no_mangle)]
pub extern "C" fn probe_hmac(key: &[u8], message: &[u8], digest: &mut [u8; 32]) -> u32
    ensures value { result ≡ (hmac_answer key.now message.now).number }
    ensures digest_after { digest.new ≡ (hmac_answer key.now message.now).digest }
{
    told(hmac::hmac(key, message), digest)
}
