// The hash steps of a job: which key and which message its HMAC is of, and the block that a step hashes.
//
// Contracts cite specs/, document 01's table of signatures. How an HMAC is made of blocks is `hmac`'s.
//
// kept: matches on enums that pick a value or a call, since each arm is proved by itself and none can be left out.

#![tactic(auto)]

ghost use Rattle.std.specs.Prelude.{◌≡◌, ◌++◌};
ghost use Rattle.words.specs.Words.{bytes_of};
ghost use Rattle.words.specs.Table.{field};
ghost use Rattle.hmac.specs.Quarters.{chain_after};
ghost use Rattle.signing.specs.Signing.{quarter_of, key_of};
ghost use Rattle.signing.specs.Hashed.{block_done, inner_after, made_after, with_block, hashed};

use hmac::Quarter;
use jobs::Command;
use state::{Job, State};

// The quarter of an HMAC that a step hashes.
#[tactic(auto, unfolding(crate::specs::Signing::quarter_of, words::specs::Choice::pick))]
fn quarter_of(step: u8) -> Quarter
    ensures { result ≡ quarter_of step }
{
    match step % 4 {
        0 => Quarter::KeyIpad,
        1 => Quarter::Message,
        2 => Quarter::KeyOpad,
        _ => Quarter::InnerDigest,
    }
}

// The key that a root key frame sends.
//
// kept: no `words::part`, which copies byte by byte: steps 5 to 8 of a session key job then take some 120 instructions more, and the
// last, measured at 3,863, is above the aim of 1.25 blocks.
fn key_sent(frame: [u8; 64]) -> [u8; 32]
    ensures { result ≡ field 4 32 frame }
{
    let mut key = [0; 32];
    key.copy_from_slice(&frame[4..36]);
    key
}

// The key of the HMAC that a job is at.
#[tactic(auto, unfolding(words::specs::Choice::pick))]
fn key_of(command: Command, s: State) -> [u8; 32]
    ensures { result ≡ key_of command s }
{
    match command {
        Command::WriteRootKey => key_sent(s.job.frame),
        Command::UpdateSessionKey if s.job.step < 4 => s.job.root_key,
        Command::UpdateSessionKey => s.job.made,
        Command::IncrementCounter | Command::RequestCounter => {
            state::session_key(s, s.job.counter).bytes
        }
    }
}

// What a request's reply is signed over: the tag, then the counter value.
pub fn tag_and_value(frame: [u8; 64], value: u32) -> [u8; 16]
    ensures { result ≡ field 4 12 frame ++ bytes_of value }
{
    let mut message = [0; 16];
    message[..12].copy_from_slice(&frame[4..16]);
    message[12..].copy_from_slice(&words::bytes(value));
    message
}

// The chaining words of the step's block: a session key frame has two HMACs, the first of the key data under the root key in use, and
// so has a request, the second for its reply.
#[tactic(auto, unfolding(crate::specs::Hashed::block_done, words::specs::Choice::pick))]
fn block_done(command: Command, s: State) -> [u32; 8]
    ensures { result ≡ block_done command s }
{
    let quarter = quarter_of(s.job.step);
    let key = key_of(command, s);
    let after = |message: &[u8]| -> [u32; 8]
        ensures { result ≡ chain_after quarter key message.now s.chain s.job.inner }
    { hmac::chain_after(quarter, key, message, s.chain, s.job.inner) };
    let frame = s.job.frame;
    match command {
        Command::WriteRootKey => after(&frame[..4]),
        Command::UpdateSessionKey if s.job.step < 4 => after(&frame[4..8]),
        Command::UpdateSessionKey | Command::IncrementCounter => after(&frame[..8]),
        Command::RequestCounter if s.job.step < 4 => after(&frame[..16]),
        Command::RequestCounter => after(&tag_and_value(frame, s.job.kept)),
    }
}

// The words of the inner digest after a block: kept from the second block on.
#[tactic(auto, unfolding(crate::specs::Hashed::inner_after, words::specs::Choice::pick))]
fn inner_after(step: u8, inner: [u32; 8], chain: [u32; 8]) -> [u32; 8]
    ensures { result ≡ inner_after step inner chain }
{
    if step % 4 == 1 { chain } else { inner }
}

// The session key that a job made, after a block.
#[tactic(auto, unfolding(words::specs::Choice::pick))]
fn made_after(command: Command, step: u8, made: [u8; 32], chain: [u32; 8]) -> [u8; 32]
    ensures { result ≡ made_after command step made chain }
{
    match command {
        Command::UpdateSessionKey if step == 3 => hash::digest(chain),
        _ => made,
    }
}

// The state with the chaining words of a block, and what the job keeps of them.
#[tactic(auto, unfolding(crate::specs::Hashed::with_block))]
fn with_block(command: Command, s: State, chain: [u32; 8]) -> State
    ensures { result ≡ with_block command s chain }
{
    State {
        chain,
        job: Job {
            made: made_after(command, s.job.step, s.job.made, chain),
            inner: inner_after(s.job.step, s.job.inner, chain),
            ..s.job
        },
        ..s
    }
}

// The state after a hash step.
#[tactic(auto, unfolding(crate::specs::Hashed::hashed))]
pub fn hashed(s: State) -> State
    ensures { result ≡ hashed s }
{
    let command = Command::from(s.job.kind);
    with_block(command, s, block_done(command, s))
}
