// Checks 8 to 10, made in the last step of a signature check.
//
// The digest is secret until it is compared, and compared at every word, whatever is found: which words differ picks no branch
// and no index.
//
// kept: matches on enums that pick a value or a call, since each arm is proved by itself and none can be left out.

#![tactic(auto)]

ghost use Rattle.std.specs.Prelude.{◌≡◌, false, ◌+◌, ◌≤◌};
ghost use Rattle.words.specs.Words.{words_of, word_or0};
ghost use Rattle.words.specs.Table.{field};
ghost use Rattle.words.specs.Rows.{first_failing};
ghost use Rattle.compare.specs.Compare.{differences};
ghost use Rattle.jobs.specs.Jobs.{command_type};
ghost use Rattle.decision.specs.Place.{signature_at};
ghost use Rattle.decision.specs.Signature.{signature_holds};
ghost use Rattle.checks.specs.Checks.{signature_checks, value_checks};
ghost use Rattle.checks.specs.Failures.{status, status_of};
ghost use Rattle.decision.specs.Decision.{decision};

use checks::Failure;
use jobs::Command;

// Where the 32 bytes of a signature start in a frame. Of type 00 the first 4 are not there: the key sent ends in their place.
fn signature_at(command: Command) -> usize
    ensures { (result ≡ signature_at command) × (result ≤ 32) }
{
    match command {
        Command::WriteRootKey => 32,
        Command::UpdateSessionKey | Command::IncrementCounter => 8,
        Command::RequestCounter => 16,
    }
}

// The bits in which the last seven words of a digest and of a signature differ, all of them together.
fn last_difference(digest: [u8; 32], frame: [u8; 64], at: usize) -> u32
    requires { at ≤ 32 }
    ensures { result ≡ differences 7 (words_of 7 (field 4 28 digest)) (words_of 7 (field (at + 4) 28 frame)) }
{
    let mut d = 0;
    for i in 0..7 {
        d |= words::get(&digest, 4 + 4 * i) ^ words::get(&frame, at + 4 + 4 * i);
    }
    d
}

// Whether the signature in a frame is that of the digest: of type 00 the last 28 bytes count, of the others all 32.
fn signature_holds(command: Command, frame: [u8; 64], digest: [u8; 32]) -> bool
    ensures { result ≡ signature_holds command frame digest }
{
    let at = signature_at(command);
    let first = words::get(&digest, 0) ^ words::get(&frame, at);
    let last = last_difference(digest, frame, at);
    match command {
        Command::WriteRootKey => last == 0,
        Command::UpdateSessionKey => (first | last) == 0,
        Command::IncrementCounter => (first | last) == 0,
        Command::RequestCounter => (first | last) == 0,
    }
}

// Check 8, where the signature is wrong.
#[tactic(auto, unfolding(words::specs::Rows::first_of, words::specs::Choice::pick))]
fn wrong_signature(command: Command) -> Failure
    ensures { status result ≡ first_failing (signature_checks (command_type command) false) }
{
    match command {
        Command::WriteRootKey => Failure::WrongState,
        _ => Failure::WrongFrame,
    }
}

// Check 8.
#[tactic(auto, unfolding(words::specs::Rows::first_of, words::specs::Choice::pick))]
fn signature_status(command: Command, frame: [u8; 64], digest: [u8; 32]) -> Result<(), Failure>
    ensures { status_of result ≡ first_failing (signature_checks (command_type command) (signature_holds command frame digest)) }
{
    if signature_holds(command, frame, digest) {
        return Ok(());
    }
    Err(wrong_signature(command))
}

// Checks 9 and 10 of an increment, of the frame's data and the counter value.
#[tactic(auto, unfolding(words::specs::Rows::first_of, words::specs::Choice::pick))]
fn increment_status(sent: u32, value: u32) -> Result<(), Failure>
    ensures { status_of result ≡ first_failing (value_checks 2 sent value) }
{
    if sent != value {
        return Err(Failure::WrongData);
    }
    if value == 0xFFFFFFFF {
        return Err(Failure::Fatal);
    }
    Ok(())
}

// Checks 9 and 10: an increment alone has them.
#[tactic(auto, unfolding(words::specs::Rows::first_of, words::specs::Choice::pick))]
fn value_status(command: Command, frame: [u8; 64], value: u32) -> Result<(), Failure>
    ensures { status_of result ≡ first_failing (value_checks (command_type command) (word_or0 frame 4) value) }
{
    match command {
        Command::IncrementCounter => increment_status(words::get(&frame, 4), value),
        _ => Ok(()),
    }
}

// Checks 8 to 10: the first that fails. The signature decides before the counter data does.
pub fn decision(
    command: Command,
    frame: [u8; 64],
    digest: [u8; 32],
    value: u32,
) -> Result<(), Failure>
    ensures { status_of result ≡ decision command frame digest value }
{
    signature_status(command, frame, digest)?;
    value_status(command, frame, value)
}
