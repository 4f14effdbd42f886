// The host end as C sees it: building the four OP1 frames, the session key, and reading a reply.
//
// Each is one call of the host's library, on numbers and byte slices. include/rpmc_host.h says it to C programmers, and
// crates/rpmc_host_c exports each under its name: a crate is a library, as this one is, or a static library.
//
// kept: numbers in the place of a Result, and each entry beside its like in crates/rpmc_host_c, as C has them.

#![tactic(auto)]

ghost use Rattle.std.specs.Prelude.{◌≡◌};
ghost use Rattle.host.specs.Building.{Answers, built_root_key, built_session_key, built_increment, built_request, derived_key};
ghost use Rattle.host.specs.Reading.{read_reply, number_of, part_of, part_start, further};

// A root key frame, type 00.
pub fn rpmc_build_root_key(counter: u32, root_key: &[u8], frame: &mut [u8]) -> u32
    ensures { Answers (built_root_key counter root_key.now frame.old) result frame.new }
{
    refusals::number_of(host::build_root_key(counter, root_key, frame))
}

// A session key frame, type 01.
pub fn rpmc_build_session_key(
    counter: u32,
    root_key: &[u8],
    key_data: &[u8],
    frame: &mut [u8],
) -> u32
    ensures { Answers (built_session_key counter root_key.now key_data.now frame.old) result frame.new }
{
    refusals::number_of(host::build_session_key(counter, root_key, key_data, frame))
}

// An increment frame, type 02.
pub fn rpmc_build_increment(counter: u32, session_key: &[u8], value: &[u8], frame: &mut [u8]) -> u32
    ensures { Answers (built_increment counter session_key.now value.now frame.old) result frame.new }
{
    refusals::number_of(host::build_increment(counter, session_key, value, frame))
}

// A request frame, type 03.
pub fn rpmc_build_request(counter: u32, session_key: &[u8], tag: &[u8], frame: &mut [u8]) -> u32
    ensures { Answers (built_request counter session_key.now tag.now frame.old) result frame.new }
{
    refusals::number_of(host::build_request(counter, session_key, tag, frame))
}

// The session key of a root key and key data.
pub fn rpmc_session_key(root_key: &[u8], key_data: &[u8], session_key: &mut [u8]) -> u32
    ensures { Answers (derived_key root_key.now key_data.now session_key.old) result session_key.new }
{
    refusals::number_of(host::derive_session_key(root_key, key_data, session_key))
}

// The verdict on a reply, as its number. The status of a reply that failed is the reply's first byte.
pub fn rpmc_read_reply(session_key: &[u8], tag: &[u8], reply: &[u8]) -> u32
    ensures { result ≡ number_of (read_reply session_key.now tag.now reply.now) }
{
    u32::from(host::read_reply(session_key, tag, reply))
}

// The counter bytes, where they stand in the reply. An exported function returns no reference, so the part goes to `part`.
pub fn rpmc_part<'a>(session_key: &[u8], tag: &[u8], reply: &'a [u8], part: &mut &'a [u8])
    ensures bytes { part.new.now ≡ part_of (read_reply session_key.now tag.now reply.now) reply.now }
    ensures place { part.new.ref_ptr ≡ further (part_start (read_reply session_key.now tag.now reply.now)) reply.entry.ref_ptr }
{
    *part = host::part(session_key, tag, reply);
}
