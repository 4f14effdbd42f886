// The host end: building the four OP1 frames and reading a reply, on numbers and byte slices.
//
// Contracts cite specs/. A refused call leaves the output as found; what is built fills its front, and the rest stays.

#![tactic(auto)]

ghost use Rattle.std.specs.Prelude.{◌≡◌, ◌+◌, ◌≤◌, ◌++◌, length, IfOk};
ghost use Rattle.words.specs.Words.{with_front};
ghost use Rattle.hmac.specs.Hmac.{HMAC};
ghost use Rattle.frames.specs.Layout.{layout_of};
ghost use Rattle.refusals.specs.Numbers.{number_of};
ghost use Rattle.host.specs.Frames.{head, signed_by, root_key_frame};
ghost use Rattle.host.specs.Reading.{same_tag, reply_signed, judged, read_reply, part_of, part_start, further};
ghost use Rattle.host.specs.Reading.{number_of as verdict_number};
ghost use Rattle.host.specs.Building.{build_refusal, data_size_of, built_signed};
ghost use Rattle.host.specs.Building.{Answers, built_root_key, built_session_key, built_increment, built_request, derived_key};

use refusals::Refusal;

// The HMAC of a message under a key; it is not refused.
fn signature(key: &[u8; 32], message: &[u8]) -> [u8; 32]
    requires { length message.now ≤ 55 }
    ensures { result ≡ HMAC key.now message.now }
{
    hmac::hmac(key, message).unwrap()
}

// What a frame is built of: the counter, the key that signs it, and the data that it carries.
#[derive(Clone, Copy)]
struct Build<const N: usize> {
    counter: u8,
    key: [u8; 32],
    bytes: [u8; N],
}

impl<const N: usize> Build<N> {
    // Refusals 5, 6 and 7, in this order.
    #[tactic(auto, unfolding(crate::specs::Building::build_refusal, words::specs::Rows::first_of, words::specs::Rows::any_of, words::specs::Choice::pick))]
    fn accepted(
        counter: u32,
        key: &[u8],
        bytes: &[u8],
        room: usize,
        needed: usize,
    ) -> Result<Build<N>, Refusal>
        requires { N ≤ 32 }
        ensures number { number_of result ≡ build_refusal counter (length key.now) (length bytes.now) N room needed }
        ensures counter { IfOk result (λ build. build.counter ≡ counter) }
        ensures key { IfOk result (λ build. build.key ≡ key.now) }
        ensures bytes { IfOk result (λ build. build.bytes ≡ bytes.now) }
        ensures room { IfOk result (λ build. needed ≤ room) }
    {
        if 3 < counter {
            return Err(Refusal::CounterNumber);
        }
        let Ok(key) = <[u8; 32]>::try_from(key) else {
            return Err(Refusal::InputLength);
        };
        let Ok(bytes) = <[u8; N]>::try_from(bytes) else {
            return Err(Refusal::InputLength);
        };
        if room < needed {
            return Err(Refusal::OutputLength);
        }
        Ok(Build {
            counter: counter as u8,
            key,
            bytes,
        })
    }

    // Fills the front of the output with a frame of a type: head, data and their signature.
    //
    // kept, here and in build_signed: the type is its number, the byte of the frame, by which the frame table says its length; the
    // commands are the device's.
    fn put_signed(self, frame_type: u8, out: &mut [u8])
        requires { (N ≤ 12) × (N + 36 ≤ length out.old) }
        ensures { out.new ≡ with_front (signed_by self.entry.key (head frame_type self.entry.counter ++ self.entry.bytes)) out.old }
    {
        let front = [0x9B, frame_type, self.counter, 0];
        let n = 4 + N;
        words::place(&front, 0, out);
        words::place(&self.bytes, 4, out);
        let signed = signature(&self.key, &out[..n]);
        words::place(&signed, n, out);
    }
}

// Builds a frame of a head, N bytes of data, and their signature.
#[tactic(auto, unfolding(words::specs::Choice::pick), using(refusals::proofs::Numbers::numbered))]
fn build_signed<const N: usize>(
    frame_type: u8,
    counter: u32,
    key: &[u8],
    bytes: &[u8],
    out: &mut [u8],
) -> Result<(), Refusal>
    requires { (N ≤ 12) × (N ≡ data_size_of frame_type) × (36 + N ≡ (layout_of frame_type).size) }
    ensures { Answers (built_signed frame_type counter key.now bytes.now out.old) (number_of result) out.new }
{
    let build = Build::<N>::accepted(counter, key, bytes, out.len(), 36 + N)?;
    build.put_signed(frame_type, out);
    Ok(())
}

// Builds an increment frame, type 02, of the counter data, under the session key.
#[tactic(auto, unfolding(crate::specs::Frames::increment_frame))]
pub fn build_increment(
    counter: u32,
    key: &[u8],
    value: &[u8],
    out: &mut [u8],
) -> Result<(), Refusal>
    ensures { Answers (built_increment counter key.now value.now out.old) (number_of result) out.new }
{
    build_signed::<4>(2, counter, key, value, out)
}

// Builds a request frame, type 03, of a tag, under the session key.
#[tactic(auto, unfolding(crate::specs::Frames::request_frame))]
pub fn build_request(counter: u32, key: &[u8], tag: &[u8], out: &mut [u8]) -> Result<(), Refusal>
    ensures { Answers (built_request counter key.now tag.now out.old) (number_of result) out.new }
{
    build_signed::<12>(3, counter, key, tag, out)
}

// Builds a session key frame, type 01, of the key data: the root key gives the new session key, which signs it.
#[tactic(auto, unfolding(crate::specs::Frames::session_key_frame, crate::specs::Frames::new_session_key, words::specs::Choice::pick), using(refusals::proofs::Numbers::numbered))]
pub fn build_session_key(
    counter: u32,
    root: &[u8],
    key_data: &[u8],
    out: &mut [u8],
) -> Result<(), Refusal>
    ensures { Answers (built_session_key counter root.now key_data.now out.old) (number_of result) out.new }
{
    let build = Build::<4>::accepted(counter, root, key_data, out.len(), 40)?;
    let key = signature(&build.key, &build.bytes);
    Build { key, ..build }.put_signed(1, out);
    Ok(())
}

// The session key of a root key and key data, for a host that has no HMAC of its own: 32 bytes. Refusals 6 and 7.
#[tactic(auto, unfolding(crate::specs::Frames::new_session_key, words::specs::Choice::pick), using(refusals::proofs::Numbers::numbered, crate::proofs::Front::one_run))]
pub fn derive_session_key(root: &[u8], key_data: &[u8], out: &mut [u8]) -> Result<(), Refusal>
    ensures { Answers (derived_key root.now key_data.now out.old) (number_of result) out.new }
{
    let build = Build::<4>::accepted(0, root, key_data, out.len(), 32)?;
    let key = signature(&build.key, &build.bytes);
    words::place(&key, 0, out);
    Ok(())
}

// Fills the front of the output with a root key frame.
fn put_root(counter: u8, key: &[u8; 32], out: &mut [u8])
    requires { 64 ≤ length out.old }
    ensures { out.new ≡ with_front (root_key_frame counter key.now) out.old }
{
    let front = [0x9B, 0, counter, 0];
    let signed = signature(key, &front);
    words::place(&front, 0, out);
    words::place(key, 4, out);
    words::place(&signed[4..32], 36, out);
}

// Builds a root key frame, type 00: the key sent, and the last 28 bytes of its signature. What it carries is its key.
#[tactic(auto, unfolding(words::specs::Choice::pick), using(refusals::proofs::Numbers::numbered))]
pub fn build_root_key(counter: u32, key: &[u8], out: &mut [u8]) -> Result<(), Refusal>
    ensures { Answers (built_root_key counter key.now out.old) (number_of result) out.new }
{
    let build = Build::<32>::accepted(counter, key, key, out.len(), 64)?;
    put_root(build.counter, &build.key, out);
    Ok(())
}

// What a host reads in a reply.
#[derive(Clone, Copy, Debug, PartialEq, Eq)]
pub enum Verdict {
    Refused(Refusal),
    Busy,
    Failed(u8),
    WrongTag,
    WrongSignature,
    Good,
}

// The number of a verdict.
impl From<Verdict> for u32 {
    ghost from_gives = { λ verdict result. result ≡ verdict_number verdict };

    fn from(verdict: Verdict) -> u32 {
        match verdict {
            Verdict::Refused(refusal) => u32::from(refusal),
            Verdict::Busy => 16,
            Verdict::Failed(_) => 17,
            Verdict::WrongTag => 18,
            Verdict::WrongSignature => 19,
            Verdict::Good => 0,
        }
    }
}

// Whether the tag in a reply is the one sent.
fn same_tag(tag: &[u8; 12], reply: &[u8; 49]) -> bool
    ensures { result ≡ same_tag tag.now reply.now }
{
    compare::same(&reply[1..13], tag)
}

// Whether the signature of a reply is that of its tag and counter bytes.
fn reply_signed(key: &[u8; 32], reply: &[u8; 49]) -> bool
    ensures { result ≡ reply_signed key.now reply.now }
{
    let signed = signature(key, &reply[1..17]);
    compare::same(&reply[17..49], &signed)
}

// The verdict on a reply, where key, tag and reply have the right lengths.
#[tactic(auto, unfolding(crate::specs::Reading::judged, words::specs::Rows::first_of, words::specs::Choice::pick))]
fn judged(key: &[u8; 32], tag: &[u8; 12], reply: &[u8; 49]) -> Verdict
    ensures { result ≡ judged key.now tag.now reply.now }
{
    let status = reply[0];
    if status % 2 == 1 {
        return Verdict::Busy;
    }
    if status != 0x80 {
        return Verdict::Failed(status);
    }
    if !same_tag(tag, reply) {
        return Verdict::WrongTag;
    }
    if !reply_signed(key, reply) {
        return Verdict::WrongSignature;
    }
    Verdict::Good
}

// The verdict on a reply to the request with this tag. Refusals 6 and 8.
#[tactic(auto, unfolding(crate::specs::Reading::read_reply, crate::specs::Reading::judged, words::specs::Rows::first_of, words::specs::Rows::any_of, words::specs::Choice::pick))]
pub fn read_reply(key: &[u8], tag: &[u8], reply: &[u8]) -> Verdict
    ensures { result ≡ read_reply key.now tag.now reply.now }
{
    let Ok(key) = <&[u8; 32]>::try_from(key) else {
        return Verdict::Refused(Refusal::InputLength);
    };
    let Ok(tag) = <&[u8; 12]>::try_from(tag) else {
        return Verdict::Refused(Refusal::InputLength);
    };
    let Ok(reply) = <&[u8; 49]>::try_from(reply) else {
        return Verdict::Refused(Refusal::ReplyLength);
    };
    judged(key, tag, reply)
}

// The four counter bytes, where they stand in the reply; empty unless the reply is good.
pub fn part<'a>(key: &[u8], tag: &[u8], reply: &'a [u8]) -> &'a [u8]
    ensures bytes { result.now ≡ part_of (read_reply key.now tag.now reply.now) reply.now }
    ensures place { result.ref_ptr ≡ further (part_start (read_reply key.now tag.now reply.now)) reply.entry.ref_ptr }
{
    match read_reply(key, tag, reply) {
        Verdict::Good => &reply[13..17],
        _ => &reply[..0],
    }
}
