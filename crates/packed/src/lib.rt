// The state of the device as 383 bytes, and back. For tests only: so C programs hand states in and out.
//
// Contracts cite specs/: Unpacked says what bytes stand for, Packed which bytes a state becomes.

#![tactic(auto)]

mod reading;
mod storing;

ghost use Rattle.std.specs.Prelude.{◌≡◌};
ghost use Rattle.packed.specs.Unpacked.{unpacked};
ghost use Rattle.packed.specs.Packed.{packed};

use state::State;

// The state that some bytes stand for.
#[tactic(auto, unfolding(crate::specs::Unpacked::unpacked))]
pub fn unpack(s: &[u8]) -> State
    ensures { result ≡ unpacked s.now }
{
    State {
        status: words::byte(s, 0),
        keys: reading::keys_of(s),
        reply: reading::reply_of(s),
        enabled: reading::flag_at(s, 1),
        chain: words::words_at(s, 191),
        job: reading::job_of(s),
    }
}

// The bytes of a state. Always inlined, with `put`: so the compiler sees what of a state a call has changed.
#[inline(always)]
pub fn pack(s: State, out: &mut [u8; 383])
    ensures { out.new ≡ packed s }
{
    storing::put_head(s, out);
    storing::put(&s.reply.bytes, 11, out);
    storing::put_keys(s, out);
    storing::put_work(s, out);
}
