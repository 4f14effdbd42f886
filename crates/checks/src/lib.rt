// What a taken OP1 frame meets on arrival: checks 1 to 7; and the failures of all ten checks.
//
// Contracts cite specs/, document 01's list as a table.
//
// kept: matches on enums that pick a value or a call, since each arm is proved by itself and none can be left out.

#![tactic(auto)]

ghost use Rattle.std.specs.Prelude.{◌≡◌, true, [], ◌∷◌, eqb, drop};
ghost use Rattle.words.specs.Rows.{◌gives◌, first_failing};
ghost use Rattle.frames.specs.Layout.{layout_of};
ghost use Rattle.jobs.specs.Jobs.{command_type};
ghost use Rattle.checks.specs.Checks.{wrong_state, not_ready, arrival_checks, arrival_status};
ghost use Rattle.checks.specs.Failures.{status, status_of};

use image::Slot;
use jobs::Command;

// How a check fails, by the status that it posts; of 02h, 04h and 20h there are several causes.
#[derive(Clone, Copy, Debug, PartialEq, Eq)]
pub enum Failure {
    WrongState,
    WrongFrame,
    NoCounter,
    NotReady,
    WrongData,
    Fatal,
}

// The status that a failure posts.
impl From<Failure> for u8 {
    ghost from_gives = { λ failure result. result ≡ status failure };

    fn from(failure: Failure) -> u8 {
        match failure {
            Failure::WrongState => 0x02,
            Failure::WrongFrame => 0x04,
            Failure::NoCounter => 0x06,
            Failure::NotReady => 0x08,
            Failure::WrongData => 0x10,
            Failure::Fatal => 0x20,
        }
    }
}

// The length of a command's frame.
fn frame_length(command: Command) -> usize
    ensures { result ≡ (layout_of (command_type command)).size }
{
    match command {
        Command::WriteRootKey => 64,
        Command::UpdateSessionKey | Command::IncrementCounter => 40,
        Command::RequestCounter => 48,
    }
}

// Whether check 6 fails: a root key frame on a set root, or a session key frame on an unset counter.
#[tactic(auto, unfolding(words::specs::Choice::pick))]
fn wrong_state(command: Command, slot: Slot) -> bool
    ensures { result ≡ wrong_state (command_type command) slot }
{
    match command {
        Command::WriteRootKey => slot.root_state == 0,
        Command::UpdateSessionKey => slot.counter_state != 0,
        Command::IncrementCounter | Command::RequestCounter => false,
    }
}

// Whether check 7 fails: an increment or a request on an unset counter, or without a session key.
#[tactic(auto, unfolding(words::specs::Choice::pick))]
fn not_ready(command: Command, slot: Slot, has_key: bool) -> bool
    ensures { result ≡ not_ready (command_type command) slot has_key }
{
    match command {
        Command::WriteRootKey | Command::UpdateSessionKey => false,
        Command::IncrementCounter | Command::RequestCounter => slot.counter_state != 0 || !has_key,
    }
}

// Check 4, where the counter is not below the count.
#[tactic(auto, unfolding(words::specs::Rows::first_of, words::specs::Choice::pick))]
fn no_counter(command: Command) -> Failure
    ensures { status result ≡ first_failing ((eqb (command_type command) 0 gives 0x06) ∷ (true gives 0x04) ∷ []) }
{
    match command {
        Command::WriteRootKey => Failure::NoCounter,
        _ => Failure::WrongFrame,
    }
}

// Checks 3 to 7, of the command and the bytes of a frame's head, the image's count, the counter's slot, and whether it has a
// session key.
#[tactic(auto, unfolding(words::specs::Rows::first_of, words::specs::Choice::pick))]
fn head_status(
    command: Command,
    reserved: u8,
    counter: u8,
    count: u32,
    slot: Slot,
    has_key: bool,
) -> Result<(), Failure>
    ensures { status_of result ≡ first_failing (drop 2 (arrival_checks (command_type command) 0 reserved counter count slot has_key)) }
{
    if reserved != 0 {
        return Err(Failure::WrongFrame);
    }
    if count <= counter as u32 {
        return Err(no_counter(command));
    }
    if image::is_bad(slot) {
        return Err(Failure::Fatal);
    }
    if wrong_state(command, slot) {
        return Err(Failure::WrongState);
    }
    if not_ready(command, slot, has_key) {
        return Err(Failure::NotReady);
    }
    Ok(())
}

// Checks 1 to 7: the first that fails. A byte that is not there reads as 0, and the length is then wrong.
#[tactic(auto, unfolding(crate::specs::Checks::arrival_status, words::specs::Rows::first_of, words::specs::Choice::pick))]
pub fn arrival_status(frame: &[u8], count: u32, slot: Slot, has_key: bool) -> Result<(), Failure>
    ensures { status_of result ≡ arrival_status frame.now count slot has_key }
{
    let Ok(command) = Command::try_from(words::byte(frame, 1)) else {
        return Err(Failure::WrongFrame);
    };
    if frame.len() != frame_length(command) {
        return Err(Failure::WrongFrame);
    }
    head_status(
        command,
        words::byte(frame, 3),
        words::byte(frame, 2),
        count,
        slot,
        has_key,
    )
}
