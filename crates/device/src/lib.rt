// The device of document 01: power-up, frame and work.
//
// Each call takes any image, state, frame, buffer and quota, and its contract fixes the answer, the state and every lent byte.
// The image is lent to a frame call for reading alone: no frame stores a word, only steps do.
//
// kept: the image and the state are two parameters, since a call writes the one in place and answers the other; and a match on the
// class of a frame, since each arm is proved by itself and none can be left out.

#![tactic(auto)]

ghost use Rattle.std.specs.Prelude.{◌≡◌, []};
ghost use Rattle.refusals.specs.Numbers.{number_of};
ghost use Rattle.device.specs.Frame.{with_enabled, state_after, output_after};
ghost use Rattle.device.specs.Work.{run, steps_done};
ghost use Rattle.device.specs.Calls.{device, answer, answer_of, powered_up, after_frame, output_after_frame, after_steps, after_work, image_after_work};

use frames::Class;
use refusals::Refusal;
use state::State;

// The outcome of a call that is not refused.
const DONE: Result<(), Refusal> = Ok(());

// The answer of a call: whether it is done, or why it is refused; the steps done; the state afterwards, which a refused call
// answers too.
#[derive(Clone, Copy)]
pub struct Answer {
    pub outcome: Result<(), Refusal>,
    pub steps: u32,
    pub state: State,
}

// The state with reset-enable on or off.
#[tactic(auto, unfolding(crate::specs::Frame::with_enabled))]
fn with_enabled(s: State, enabled: bool) -> State
    ensures { result ≡ with_enabled s enabled }
{
    State { enabled, ..s }
}

// The state after a 99h.
#[tactic(auto, unfolding(words::specs::Choice::pick))]
fn after_reset(s: State) -> State
    ensures { result ≡ state_after Class.Reset [] s [] }
{
    if s.enabled {
        return state::power_on();
    }
    with_enabled(s, false)
}

// The state after a command frame: ignored while busy, else taken.
#[tactic(auto, unfolding(words::specs::Choice::pick))]
fn after_command(image: &[u8], s: State, frame: &[u8]) -> State
    ensures { result ≡ state_after Class.CommandFrame image.now s frame.now }
{
    if s.job.there {
        return with_enabled(s, false);
    }
    arrival::arrived(image, s, frame)
}

// The state after a frame of a class.
fn state_after(class: Class, image: &[u8], s: State, frame: &[u8]) -> State
    ensures { result ≡ state_after class image.now s frame.now }
{
    match class {
        Class::Empty => s,
        Class::EnableReset => with_enabled(s, true),
        Class::Reset => after_reset(s),
        Class::Read => with_enabled(s, false),
        Class::CommandFrame => after_command(image, s, frame),
        Class::Unnamed => with_enabled(s, false),
    }
}

// Writes what a frame of a class puts out: the read alone does.
fn put_output(class: Class, s: State, output: &mut [u8])
    ensures { output.new ≡ output_after class s output.old }
{
    if let Class::Read = class {
        frames::fill_read(s.job.there, s.status, s.reply, output);
    }
}

// The answer of a call that did no step.
fn no_step(outcome: Result<(), Refusal>, state: State) -> Answer
    ensures { answer_of result ≡ answer (number_of outcome) 0 state }
{
    Answer {
        outcome,
        steps: 0,
        state,
    }
}

// Power-up: the power-on state. Refusals 1 to 3.
#[tactic(auto, unfolding(crate::specs::Calls::powered_up))]
pub fn power_up(image: &[u8]) -> Answer
    ensures { answer_of result ≡ powered_up image.now }
{
    no_step(image::accepted(image), state::power_on())
}

// One frame, with the buffer that a read fills. Refusals 1 to 4. A refused call returns early: states that meet behind the arms of a
// match are put together byte by byte.
#[tactic(auto, unfolding(crate::specs::Calls::after_frame, crate::specs::Calls::output_after_frame, words::specs::Choice::pick), using(refusals::proofs::Numbers::numbered))]
pub fn frame(image: &[u8], s: State, frame: &[u8], output: &mut [u8]) -> Answer
    ensures value { answer_of result ≡ after_frame image.now s frame.now }
    ensures output_after { output.new ≡ output_after_frame image.now s frame.now output.old }
{
    let accepted = state::accepted(image, s);
    if accepted.is_err() {
        return no_step(accepted, s);
    }
    let class = frames::class_of(frame);
    put_output(class, s, output);
    no_step(DONE, state_after(class, image, s, frame))
}

// The answer of a work call that did its steps.
#[tactic(auto, unfolding(crate::specs::Calls::after_steps))]
fn worked(steps: u32, state: State) -> Answer
    ensures { answer_of result ≡ answer 0 steps state }
{
    Answer {
        outcome: DONE,
        steps,
        state,
    }
}

// The steps of an accepted work call: as many as the quota, or until no job runs.
fn work_steps(image: &mut [u8], s: State, quota: u32) -> Answer
    ensures value { answer_of result ≡ after_steps (device image.old s) (steps_done quota (device image.old s)) }
    ensures image_after { image.new ≡ (run (steps_done quota (device image.old s)) (device image.old s)).image }
{
    let mut t = s;
    for done in 0..quota {
        if !state::is_running(t) {
            return worked(done, t);
        }
        t = steps::step(image, t);
    }
    worked(quota, t)
}

// Work: at most the quota's steps of the job, and how many were done. Refusals 1 to 4.
#[tactic(auto, unfolding(crate::specs::Calls::after_work, crate::specs::Calls::image_after_work, words::specs::Choice::pick), using(refusals::proofs::Numbers::numbered))]
pub fn work(image: &mut [u8], s: State, quota: u32) -> Answer
    ensures value { answer_of result ≡ after_work (device image.old s) quota }
    ensures image_after { image.new ≡ image_after_work (device image.old s) quota }
{
    let outcome = state::accepted(image, s);
    if outcome.is_err() {
        return no_step(outcome, s);
    }
    work_steps(image, s, quota)
}
