// The parts of a state, read from its bytes. Bytes that are not there read as 0.
ghost use Rattle.std.specs.Prelude.{◌≡◌, ◌≤◌, get_or};
ghost use Rattle.packed.specs.Codes.{flag_of, kind_of};
ghost use Rattle.packed.specs.Unpacked.{key_at, keys_of, reply_of, job_of};

use frames::Reply;
use jobs::Kind;
use state::{Job, Key};

// The flag at a place: 1 is yes.
//
// kept: no TryFrom, since every other byte is no.
pub(crate) fn flag_at(s: &[u8], at: usize) -> bool
    ensures { result ≡ flag_of (get_or s.now at 0) }
{
    words::byte(s, at) == 1
}

// The kind of job of a number.
//
// kept: no From, which only the crate of the kinds could have, and these numbers are this form's own.
#[tactic(auto, unfolding(crate::specs::Codes::kind_of, words::specs::Choice::pick))]
fn kind_of(number: u8) -> Kind
    ensures { result ≡ kind_of number }
{
    match number {
        0 => Kind::RootKeyAndCounter,
        1 => Kind::RootKey,
        2 => Kind::TemporaryKeyAndCounter,
        3 => Kind::TemporaryKey,
        4 => Kind::SessionKey,
        5 => Kind::Increment,
        _ => Kind::Request,
    }
}

// The session key from a place on.
fn key_at(s: &[u8], at: usize) -> Key
    requires { at ≤ 382 }
    ensures { result ≡ key_at at s.now }
{
    Key {
        there: flag_at(s, at),
        bytes: words::part(s, at + 1),
    }
}

// The four session keys.
pub(crate) fn keys_of(s: &[u8]) -> [Key; 4]
    ensures { result ≡ keys_of s.now }
{
    [key_at(s, 59), key_at(s, 92), key_at(s, 125), key_at(s, 158)]
}

// The reply.
pub(crate) fn reply_of(s: &[u8]) -> Reply
    ensures { result ≡ reply_of s.now }
{
    Reply {
        there: flag_at(s, 10),
        bytes: words::part(s, 11),
    }
}

// The job.
pub(crate) fn job_of(s: &[u8]) -> Job
    ensures { result ≡ job_of s.now }
{
    Job {
        there: flag_at(s, 2),
        kind: kind_of(words::byte(s, 3)),
        counter: words::byte(s, 4),
        step: words::byte(s, 5),
        frame: words::part(s, 255),
        root_key: words::part(s, 319),
        made: words::part(s, 351),
        inner: words::words_at(s, 223),
        kept: words::get(s, 6),
    }
}
