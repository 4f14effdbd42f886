// The state of the device, a struct by value, and refusal 4.
//
// A caller may hand in any state that the types allow. What is not there has one form: zeros, so that a state is determined.

#![tactic(auto)]

ghost use Rattle.std.specs.Prelude.{◌≡◌, get_or};
ghost use Rattle.refusals.specs.Numbers.{number_of};
ghost use Rattle.state.specs.Parts.{no_key, no_reply, no_job, power_on, session_key, posted};
ghost use Rattle.state.specs.Refusal.{is_running, job_refusal, device_refusal};

use frames::Reply;
use jobs::Kind;
use refusals::Refusal;

// A session key, or that there is none.
//
// kept: no Option, here and in Job. `device::frame` takes any state, also one with bytes and the flag off, and the clause of
// `probe_state` gives it back.
#[derive(Clone, Copy)]
pub struct Key {
    pub there: bool,
    pub bytes: [u8; 32],
}

// The job, or that there is none: its kind and counter, the number of steps done, and what it keeps: the frame, with zeros
// behind it, the root key in use on arrival, the session key that it made, the chaining words of the inner digest, and the
// word to store or to report.
#[derive(Clone, Copy)]
pub struct Job {
    pub there: bool,
    pub kind: Kind,
    pub counter: u8,
    pub step: u8,
    pub frame: [u8; 64],
    pub root_key: [u8; 32],
    pub made: [u8; 32],
    pub inner: [u32; 8],
    pub kept: u32,
}

// The state: the status, the session keys by counter, the reply, reset-enable, the chaining words of the last hash step, and
// the job.
#[derive(Clone, Copy)]
pub struct State {
    pub status: u8,
    pub keys: [Key; 4],
    pub reply: Reply,
    pub enabled: bool,
    pub chain: [u32; 8],
    pub job: Job,
}

// No session key.
fn no_key() -> Key
    ensures { result ≡ no_key }
{
    Key {
        there: false,
        bytes: [0; 32],
    }
}

// No reply.
pub fn no_reply() -> Reply
    ensures { result ≡ no_reply }
{
    Reply {
        there: false,
        bytes: [0; 48],
    }
}

// No job.
fn no_job() -> Job
    ensures { result ≡ no_job }
{
    Job {
        there: false,
        kind: Kind::TemporaryKey,
        counter: 0,
        step: 0,
        frame: [0; 64],
        root_key: [0; 32],
        made: [0; 32],
        inner: [0; 8],
        kept: 0,
    }
}

// The power-on state.
pub fn power_on() -> State
    ensures { result ≡ power_on }
{
    State {
        status: 0x00,
        keys: [no_key(); 4],
        reply: no_reply(),
        enabled: false,
        chain: [0; 8],
        job: no_job(),
    }
}

// The session key of a counter; none where there is no such counter.
pub fn session_key(s: State, counter: u8) -> Key
    ensures { result ≡ session_key s counter }
{
    s.keys.get(counter as usize).copied().unwrap_or(no_key())
}

// The state with a status posted: the job has ended.
pub fn posted(s: State, status: u8) -> State
    ensures { result ≡ posted s status }
{
    State {
        status,
        job: no_job(),
        ..s
    }
}

// Whether a job runs: it is there, and a step is left of it.
#[tactic(auto, unfolding(crate::specs::Refusal::is_running, words::specs::Choice::pick))]
pub fn is_running(s: State) -> bool
    ensures { result ≡ is_running s }
{
    s.job.there && s.job.step < jobs::length_of(s.job.kind)
}

// Refusal 4, of the image's count and the state.
#[tactic(auto, unfolding(crate::specs::Refusal::job_refusal, words::specs::Rows::first_of, words::specs::Rows::any_of, words::specs::Choice::pick))]
fn job_accepted(count: u32, s: State) -> Result<(), Refusal>
    ensures { number_of result ≡ job_refusal count s }
{
    if s.job.there && (count <= s.job.counter as u32 || !is_running(s)) {
        return Err(Refusal::Job);
    }
    Ok(())
}

// Refusals 1 to 4, in order.
pub fn accepted(image: &[u8], s: State) -> Result<(), Refusal>
    ensures { number_of result ≡ device_refusal image.now s }
{
    image::accepted(image)?;
    job_accepted(image::count(image), s)
}
