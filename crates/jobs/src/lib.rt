// The kinds of job, how long each runs, and the commands that they carry out.
//
// Contracts cite specs/, document 01's section "Steps".
//
// kept: matches on enums that pick a value or a call, since each arm is proved by itself and none can be left out.

#![tactic(auto)]

ghost use Rattle.std.specs.Prelude.{◌≡◌};
ghost use Rattle.jobs.specs.Jobs.{length_of, command_of, IsTyped, signature_steps, hash_steps, root_kind, kind_of};

// The kinds of job: four of root key frames, by the key (a root key, or the temporary one, which is all FFh and is not stored) and
// by whether the counter is set with it; then a session key, an increment, a request.
#[derive(Clone, Copy)]
pub enum Kind {
    RootKeyAndCounter,
    RootKey,
    TemporaryKeyAndCounter,
    TemporaryKey,
    SessionKey,
    Increment,
    Request,
}

// The four commands, types 00 to 03.
#[derive(Clone, Copy)]
pub enum Command {
    WriteRootKey,
    UpdateSessionKey,
    IncrementCounter,
    RequestCounter,
}

// How many steps a kind of job takes if no check fails.
pub fn length_of(kind: Kind) -> u8
    ensures { result ≡ length_of kind }
{
    match kind {
        Kind::RootKeyAndCounter => 15,
        Kind::RootKey => 13,
        Kind::TemporaryKeyAndCounter => 6,
        Kind::TemporaryKey => 4,
        Kind::SessionKey | Kind::Request => 8,
        Kind::Increment => 5,
    }
}

// The command that a kind of job carries out.
impl From<Kind> for Command {
    ghost from_gives = { λ kind result. result ≡ command_of kind };

    fn from(kind: Kind) -> Command {
        match kind {
            Kind::RootKeyAndCounter
            | Kind::RootKey
            | Kind::TemporaryKeyAndCounter
            | Kind::TemporaryKey => Command::WriteRootKey,
            Kind::SessionKey => Command::UpdateSessionKey,
            Kind::Increment => Command::IncrementCounter,
            Kind::Request => Command::RequestCounter,
        }
    }
}

// Said of a type that no command has.
#[derive(Clone, Copy)]
pub struct UnknownType;

// The command of a type.
impl TryFrom<u8> for Command {
    type Error = UnknownType;

    ghost try_from_gives = { IsTyped };

    fn try_from(frame_type: u8) -> Result<Command, UnknownType> {
        match frame_type {
            0 => Ok(Command::WriteRootKey),
            1 => Ok(Command::UpdateSessionKey),
            2 => Ok(Command::IncrementCounter),
            3 => Ok(Command::RequestCounter),
            _ => Err(UnknownType),
        }
    }
}

// The step in which a command's checks 8 to 10 are made: the last of its signature check.
pub fn signature_steps(command: Command) -> u8
    ensures { result ≡ signature_steps command }
{
    match command {
        Command::WriteRootKey | Command::IncrementCounter | Command::RequestCounter => 4,
        Command::UpdateSessionKey => 8,
    }
}

// How many of a command's steps are one block each; those after them store a word each.
pub fn hash_steps(command: Command) -> u8
    ensures { result ≡ hash_steps command }
{
    match command {
        Command::WriteRootKey | Command::IncrementCounter => 4,
        Command::UpdateSessionKey | Command::RequestCounter => 8,
    }
}

// The kind of job of a root key frame: `temporary` says that its key is all FFh.
#[tactic(auto, unfolding(crate::specs::Jobs::root_kind, words::specs::Choice::pick))]
fn root_kind(temporary: bool, counter_state: u32) -> Kind
    ensures { result ≡ root_kind temporary counter_state }
{
    match (temporary, counter_state) {
        (true, 0) => Kind::TemporaryKey,
        (true, _) => Kind::TemporaryKeyAndCounter,
        (false, 0) => Kind::RootKey,
        (false, _) => Kind::RootKeyAndCounter,
    }
}

// The kind of job that a frame of a type starts.
//
// kept: the type is any number, since `kind_of` says what comes of every one.
#[tactic(auto, unfolding(crate::specs::Jobs::kind_of, words::specs::Choice::pick))]
pub fn kind_of(frame_type: u8, temporary: bool, counter_state: u32) -> Kind
    ensures { result ≡ kind_of frame_type temporary counter_state }
{
    match frame_type {
        0 => root_kind(temporary, counter_state),
        1 => Kind::SessionKey,
        2 => Kind::Increment,
        _ => Kind::Request,
    }
}
