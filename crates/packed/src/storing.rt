// The parts of a state, stored as bytes in their places.
ghost use Rattle.std.specs.Prelude.{◌+◌, ◌≤◌};
ghost use Rattle.packed.specs.Packed.{packed_head, packed_key, packed_keys, packed_work};
ghost use Rattle.packed.specs.Stored.{Stored};

use state::{Key, State};

// Stores some bytes from a place on. Always inlined, as `pack` is.
#[tactic(auto, using(crate::proofs::Runs::stored_inside))]
#[inline(always)]
pub(crate) fn put<const N: usize>(bytes: &[u8; N], at: usize, out: &mut [u8; 383])
    requires { at + N ≤ 383 }
    ensures { Stored out.old at bytes.now N out.new }
{
    words::place(bytes, at, out);
}

// Stores the head. The kinds stand in `jobs` in the order of their numbers.
#[tactic(auto, using(crate::proofs::Codes::from_flag))]
pub(crate) fn put_head(s: State, out: &mut [u8; 383])
    ensures { Stored out.old 0 (packed_head s) 11 out.new }
{
    let kept = words::bytes(s.job.kept);
    let head = [
        s.status,
        u8::from(s.enabled),
        u8::from(s.job.there),
        s.job.kind as u8,
        s.job.counter,
        s.job.step,
        kept[0],
        kept[1],
        kept[2],
        kept[3],
        u8::from(s.reply.there),
    ];
    put(&head, 0, out);
}

// Stores a session key.
#[tactic(auto, using(crate::proofs::Runs::byte_first), unfolding(words::specs::Choice::pick))]
fn put_key(key: Key, at: usize, out: &mut [u8; 383])
    requires { at + 33 ≤ 383 }
    ensures { Stored out.old at (packed_key key) 33 out.new }
{
    out[at] = u8::from(key.there);
    put(&key.bytes, at + 1, out);
}

// Stores the session keys.
pub(crate) fn put_keys(s: State, out: &mut [u8; 383])
    ensures { Stored out.old 59 (packed_keys s) 132 out.new }
{
    put_key(state::session_key(s, 0), 59, out);
    put_key(state::session_key(s, 1), 92, out);
    put_key(state::session_key(s, 2), 125, out);
    put_key(state::session_key(s, 3), 158, out);
}

// Stores the chaining words, and what the job keeps.
pub(crate) fn put_work(s: State, out: &mut [u8; 383])
    ensures { Stored out.old 191 (packed_work s) 192 out.new }
{
    put(&hash::digest(s.chain), 191, out);
    put(&hash::digest(s.job.inner), 223, out);
    put(&s.job.frame, 255, out);
    put(&s.job.root_key, 319, out);
    put(&s.job.made, 351, out);
}
