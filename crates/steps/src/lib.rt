// One step of a job: one SHA-256 block, or one aligned image word stored. The last step posts the status.
//
// Contracts cite specs/, document 01's section "Steps".
//
// kept: matches on enums that pick a value or a call, since each arm is proved by itself and none can be left out.

#![tactic(auto)]

ghost use Rattle.std.specs.Prelude.{◌≡◌, ◌+◌, ◌<◌, ◌≤◌, ◌++◌, slice_set};
ghost use Rattle.words.specs.Words.{bytes_of, bytes_of_all};
ghost use Rattle.words.specs.Table.{field};
ghost use Rattle.jobs.specs.Jobs.{command_of, hash_steps};
ghost use Rattle.checks.specs.Failures.{status_of};
ghost use Rattle.plan.specs.Storing.{stored};
ghost use Rattle.steps.specs.Ending.{with_key, with_reply, finished_by, is_last, with_step, advanced};
ghost use Rattle.steps.specs.Deciding.{with_kept, decision_of, decided, hash_step};
ghost use Rattle.rules.specs.Whole.{kept_after};
ghost use Rattle.steps.specs.Step.{store_now, step_state, step_image};

use checks::Failure;
use frames::Reply;
use jobs::Command;
use state::{Job, Key, State};

// The keys with one of them replaced; as they were where there is no such counter.
fn keys_with(keys: [Key; 4], counter: u8, key: Key) -> [Key; 4]
    ensures { result ≡ slice_set keys counter key }
{
    let mut k = keys;
    if counter < 4 {
        k[counter as usize] = key;
    }
    k
}

// The state with a session key.
#[tactic(auto, unfolding(crate::specs::Ending::with_key))]
fn with_key(s: State, counter: u8, bytes: [u8; 32]) -> State
    ensures { result ≡ with_key s counter bytes }
{
    State {
        keys: keys_with(s.keys, counter, Key { there: true, bytes }),
        ..s
    }
}

// What was signed and its signature, one after the other.
fn reply_bytes(message: [u8; 16], signature: [u8; 32]) -> [u8; 48]
    ensures { result ≡ message ++ signature }
{
    let mut bytes = [0; 48];
    words::place(&message, 0, &mut bytes);
    words::place(&signature, 16, &mut bytes);
    bytes
}

// The state with a reply.
#[tactic(auto, unfolding(crate::specs::Ending::with_reply))]
fn with_reply(s: State, bytes: [u8; 48]) -> State
    ensures { result ≡ with_reply s bytes }
{
    State {
        reply: Reply { there: true, bytes },
        ..s
    }
}

// The state with the reply to a request: tag, counter value, signature.
fn answered(s: State, frame: [u8; 64], value: u32, chain: [u32; 8]) -> State
    ensures { result ≡ with_reply s (field 4 12 frame ++ bytes_of value ++ bytes_of_all chain) }
{
    let message = signing::tag_and_value(frame, value);
    with_reply(s, reply_bytes(message, hash::digest(chain)))
}

// The state after the last step: 80h is posted, with the session key or the reply that the command is for. Each arm returns by
// itself: states that meet behind the arms would be put together byte by byte.
fn finished_by(command: Command, s: State) -> State
    ensures { result ≡ finished_by command s }
{
    let done = state::posted(s, 0x80);
    match command {
        Command::WriteRootKey | Command::IncrementCounter => {
            return done;
        }
        Command::UpdateSessionKey => {
            return with_key(done, s.job.counter, s.job.made);
        }
        Command::RequestCounter => {
            return answered(done, s.job.frame, s.job.kept, s.chain);
        }
    }
}

// Whether the next step is the job's last.
//
// kept: that a step number more fits a byte is asked for here and in four functions more. A type of a state with a step left would have
// to be made anew after each block and each check, with the same proof that is now at the call.
fn is_last(s: State) -> bool
    requires { s.job.step < 255 }
    ensures { result ≡ is_last s }
{
    s.job.step + 1 == jobs::length_of(s.job.kind)
}

// The state with one more step done.
#[tactic(auto, unfolding(crate::specs::Ending::with_step))]
fn with_next(s: State) -> State
    requires { s.job.step < 255 }
    ensures { result ≡ with_step s (s.job.step + 1) }
{
    State {
        job: Job {
            step: s.job.step + 1,
            ..s.job
        },
        ..s
    }
}

// The state after the last step of the job. Each step that can be the last asks by itself and calls this or `with_next`: in a
// function of their own the two are not inlined, and each step copies the state.
fn finished(s: State) -> State
    ensures { result ≡ finished_by (command_of s.job.kind) s }
{
    finished_by(Command::from(s.job.kind), s)
}

// The word that a job keeps once its checks have passed.
fn kept_after(command: Command, kept: u32, value: u32) -> u32
    ensures { result ≡ kept_after command kept value }
{
    match command {
        Command::WriteRootKey | Command::UpdateSessionKey => kept,
        Command::IncrementCounter => value.wrapping_add(1),
        Command::RequestCounter => value,
    }
}

// The state with a word kept.
#[tactic(auto, unfolding(crate::specs::Deciding::with_kept))]
fn with_kept(s: State, kept: u32) -> State
    ensures { result ≡ with_kept s kept }
{
    State {
        job: Job { kept, ..s.job },
        ..s
    }
}

// Checks 8 to 10, of the digest that the state holds.
fn decision_of(s: State, value: u32) -> Result<(), Failure>
    ensures { status_of result ≡ decision_of s value }
{
    let command = Command::from(s.job.kind);
    decision::decision(command, s.job.frame, hash::digest(s.chain), value)
}

// The state after the last step of the signature check: a failed check ends the job.
#[tactic(auto, unfolding(crate::specs::Deciding::decided, words::specs::Choice::pick), using(checks::proofs::Failures::posts))]
fn decided(s: State, value: u32) -> State
    requires { s.job.step < 255 }
    ensures { result ≡ decided s value }
{
    if let Err(failure) = decision_of(s, value) {
        return state::posted(s, u8::from(failure));
    }
    let kept = kept_after(Command::from(s.job.kind), s.job.kept, value);
    let t = with_kept(s, kept);
    if is_last(t) {
        return finished(t);
    }
    with_next(t)
}

// The state after a hash step.
fn hash_step(image: &[u8], s: State) -> State
    requires { s.job.step < 255 }
    ensures { result ≡ hash_step image.now s }
{
    let t = signing::hashed(s);
    let next = s.job.step + 1;
    if next == jobs::signature_steps(Command::from(s.job.kind)) {
        let slot = image::slot_of(image, s.job.counter);
        return decided(t, slot.value);
    }
    if is_last(t) {
        return finished(t);
    }
    with_next(t)
}

// A step that stores a word.
fn store_step(image: &mut [u8], s: State) -> State
    requires { (s.job.step < 255) × (hash_steps (command_of s.job.kind) ≤ s.job.step) }
    ensures { (result ≡ advanced s) × (image.new ≡ stored image.old s.job.counter (store_now s.job)) }
{
    let i = s.job.step - jobs::hash_steps(Command::from(s.job.kind));
    let store = plan::store_of(s.job.kind, i, s.job.frame, s.job.kept);
    plan::put_store(image, s.job.counter, store);
    if is_last(s) {
        return finished(s);
    }
    with_next(s)
}

// One step of the job; nothing where none runs.
pub fn step(image: &mut [u8], s: State) -> State
    ensures { (result ≡ step_state image.old s) × (image.new ≡ step_image image.old s) }
{
    if !state::is_running(s) {
        return s;
    }
    if s.job.step < jobs::hash_steps(Command::from(s.job.kind)) {
        return hash_step(image, s);
    }
    store_step(image, s)
}
