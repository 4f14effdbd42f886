// A command frame that arrives while the device is idle: checks 1 to 7, and the job that then runs. No step is done here.
//
// Contracts cite specs/, document 01's section "A taken OP1 frame".

#![tactic(auto)]

ghost use Rattle.std.specs.Prelude.{◌≡◌};
ghost use Rattle.checks.specs.Failures.{status_of};
ghost use Rattle.arrival.specs.Arrival.{job_of, taken, arrived};
ghost use Rattle.rules.specs.Whole.{is_temporary, status_on_arrival};

use checks::Failure;
use state::{Job, State};

// Whether a root key frame's key is all FFh; the comparison looks at every byte.
fn is_temporary(frame: [u8; 64]) -> bool
    ensures { result ≡ is_temporary frame }
{
    compare::same(&frame[4..36], &[255; 32])
}

// Checks 1 to 7 of a frame: the first that fails.
#[tactic(auto, unfolding(rules::specs::Whole::status_on_arrival))]
fn status_on_arrival(image: &[u8], s: State, frame: &[u8]) -> Result<(), Failure>
    ensures { status_of result ≡ status_on_arrival image.now s.keys frame.now }
{
    let counter = words::byte(frame, 2);
    let slot = image::slot_of(image, counter);
    let key = state::session_key(s, counter);
    checks::arrival_status(frame, image::count(image), slot, key.there)
}

// The job of a frame, of which it keeps the first 64 bytes, with zeros where the frame has fewer.
#[tactic(auto, unfolding(crate::specs::Arrival::job_of))]
fn job_of(image: &[u8], frame: &[u8]) -> Job
    ensures { result ≡ job_of image.now frame.now }
{
    let counter = words::byte(frame, 2);
    let kept = words::part(frame, 0);
    let slot = image::slot_of(image, counter);
    Job {
        there: true,
        kind: jobs::kind_of(
            words::byte(frame, 1),
            is_temporary(kept),
            slot.counter_state,
        ),
        counter,
        step: 0,
        frame: kept,
        root_key: image::root_key(image, counter),
        made: [0; 32],
        inner: [0; 8],
        kept: 0,
    }
}

// The state after a frame is taken, with a status and a job.
#[tactic(auto, unfolding(crate::specs::Arrival::taken))]
fn taken(s: State, status: u8, job: Job) -> State
    ensures { result ≡ taken s status job }
{
    State {
        status,
        reply: state::no_reply(),
        enabled: false,
        job,
        ..s
    }
}

// The state after a frame is taken. A failed check returns early, as a refused call of the device does.
#[tactic(auto, unfolding(crate::specs::Arrival::arrived, words::specs::Choice::pick), using(checks::proofs::Failures::posts))]
pub fn arrived(image: &[u8], s: State, frame: &[u8]) -> State
    ensures { result ≡ arrived image.now s frame.now }
{
    if let Err(failure) = status_on_arrival(image, s, frame) {
        return taken(s, u8::from(failure), s.job);
    }
    taken(s, 0x01, job_of(image, frame))
}
