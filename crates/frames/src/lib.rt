// The frames by their first byte: what a frame is, before anything of the device is looked at.
//
// Contracts cite specs/, document 01's section "Frames by first byte". What a read hands out is here too.

#![tactic(auto)]

ghost use Rattle.std.specs.Prelude.{◌≡◌, length};
ghost use Rattle.frames.specs.Classes.{named_class, class_of};
ghost use Rattle.frames.specs.Reading.{read_byte, read_output};

// What a frame is. A 9Bh alone is among the unnamed: like them it does nothing but clear reset-enable.
#[derive(Clone, Copy)]
pub enum Class {
    Empty,
    EnableReset,
    Reset,
    Read,
    CommandFrame,
    Unnamed,
}

// The class of a frame that is not empty, by its first byte and its length.
#[tactic(auto, unfolding(crate::specs::Classes::named_class, words::specs::Choice::pick))]
fn named_class(first: u8, size: usize) -> Class
    ensures { result ≡ named_class first size }
{
    match (first, size) {
        (0x66, 1) => Class::EnableReset,
        (0x99, 1) => Class::Reset,
        (0x96, 2) => Class::Read,
        (0x9B, 2..) => Class::CommandFrame,
        _ => Class::Unnamed,
    }
}

// The class of a frame.
#[tactic(auto, unfolding(crate::specs::Classes::class_of, words::specs::Choice::pick))]
pub fn class_of(frame: &[u8]) -> Class
    ensures { result ≡ class_of frame.now }
{
    match frame {
        [] => Class::Empty,
        [first, ..] => named_class(*first, frame.len()),
    }
}

// The reply of a request, or that there is none; its bytes are then zeros.
// kept: no Option. `device::frame` takes any state, also one with bytes and the flag off, and the clause of `probe_state` gives it back.
#[derive(Clone, Copy)]
pub struct Reply {
    pub there: bool,
    pub bytes: [u8; 48],
}

// Byte i of what a read hands out.
#[tactic(auto, unfolding(crate::specs::Reading::read_byte, words::specs::Choice::pick))]
fn read_byte(busy: bool, status: u8, reply: Reply, i: usize) -> u8
    ensures { result ≡ read_byte busy status reply i }
{
    if busy {
        return 0x01;
    }
    match i {
        0 => status,
        1..49 if reply.there => reply.bytes[i - 1],
        _ => 0xFF,
    }
}

// The read: fills the whole output buffer, of any length.
pub fn fill_read(busy: bool, status: u8, reply: Reply, out: &mut [u8])
    ensures { out.new ≡ read_output busy status reply (length out.old) }
{
    for (i, byte) in out.iter_mut().enumerate() {
        *byte = read_byte(busy, status, reply, i);
    }
}
