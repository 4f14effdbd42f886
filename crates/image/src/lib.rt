// The counter image: its header, refusals 1 to 3, and its slots. Contracts cite specs/, in document 01's words.

#![tactic(auto)]

ghost use Rattle.std.specs.Prelude.{◌≡◌, ◌<◌, ◌≤◌, ◌^◌, drop};
ghost use Rattle.words.specs.Rows.{first_failing};
ghost use Rattle.refusals.specs.Numbers.{number_of};
ghost use Rattle.image.specs.Header.{count, slot_at};
ghost use Rattle.image.specs.Refusal.{is_size, refusals, refusal};
ghost use Rattle.image.specs.Slot.{slot_of, is_state, is_bad, root_key};

use refusals::Refusal;

// The three words of a slot that are no key.
#[derive(Clone, Copy)]
pub struct Slot {
    pub root_state: u32,
    pub counter_state: u32,
    pub value: u32,
}

// Whether there are slots of so many bytes.
#[tactic(auto, unfolding(crate::specs::Refusal::is_size))]
fn is_size(size: u32) -> bool
    ensures { result ≡ is_size size }
{
    size == 48
}

// Refusal 3, of the four words of the header; the sum is exact, in 64 bits.
#[tactic(auto, unfolding(words::specs::Rows::first_of, words::specs::Rows::any_of, words::specs::Choice::pick))]
fn layout_accepted(count: u32, offset: u32, size: u32, total: u32) -> Result<(), Refusal>
    ensures { number_of result ≡ first_failing (drop 2 (refusals total count offset size total)) }
{
    if offset < 16 || offset % 4 != 0 || !is_size(size) {
        return Err(Refusal::Layout);
    }
    if (total as u64) < offset as u64 + size as u64 * count as u64 {
        return Err(Refusal::Layout);
    }
    Ok(())
}

// Refusals 2 and 3, of the four words of the header.
#[tactic(auto, unfolding(words::specs::Rows::first_of, words::specs::Rows::any_of, words::specs::Choice::pick))]
fn header_accepted(count: u32, offset: u32, size: u32, total: u32) -> Result<(), Refusal>
    ensures { number_of result ≡ first_failing (drop 1 (refusals total count offset size total)) }
{
    if count == 0 || 4 < count {
        return Err(Refusal::CounterCount);
    }
    layout_accepted(count, offset, size, total)
}

// The number of counters: word 0 of the header.
pub fn count(image: &[u8]) -> u32
    ensures { result ≡ count image.now }
{
    words::get(image, 0)
}

// Refusals 1 to 3, in order. What is too short is told before a word is read.
#[tactic(auto, unfolding(crate::specs::Refusal::refusal, words::specs::Rows::first_of, words::specs::Rows::any_of, words::specs::Choice::pick))]
pub fn accepted(image: &[u8]) -> Result<(), Refusal>
    ensures { number_of result ≡ refusal image.now }
{
    if image.len() < 16 || 65536 < image.len() {
        return Err(Refusal::ImageLength);
    }
    let total = words::get(image, 12);
    if total as usize != image.len() {
        return Err(Refusal::ImageLength);
    }
    header_accepted(
        count(image),
        words::get(image, 4),
        words::get(image, 8),
        total,
    )
}

// Where the slot of a counter starts.
pub fn slot_at(image: &[u8], counter: u8) -> usize
    ensures { (result ≡ slot_at image.now counter) × (result < 2 ^ 41) }
{
    words::get(image, 4) as usize + words::get(image, 8) as usize * counter as usize
}

// The slot of a counter.
#[tactic(auto, unfolding(crate::specs::Slot::slot_of))]
pub fn slot_of(image: &[u8], counter: u8) -> Slot
    ensures { result ≡ slot_of image.now counter }
{
    let at = slot_at(image, counter);
    Slot {
        root_state: words::get(image, at),
        counter_state: words::get(image, at + 4),
        value: words::get(image, at + 8),
    }
}

// Whether a word is one of the two state words.
#[tactic(auto, unfolding(words::specs::Choice::pick))]
fn is_state(word: u32) -> bool
    ensures { result ≡ is_state word }
{
    word == 0 || word == 0xFFFFFFFF
}

// Whether a slot is bad.
#[tactic(auto, unfolding(crate::specs::Slot::is_bad, words::specs::Choice::pick))]
pub fn is_bad(slot: Slot) -> bool
    ensures { result ≡ is_bad slot }
{
    let unpaired = slot.root_state == 0 && slot.counter_state != 0;
    !is_state(slot.root_state) || !is_state(slot.counter_state) || unpaired
}

// The root key in use of a counter. Never inlined: laid out in a caller, the compiler keeps the key's 32 bytes apart, and moves them
// one by one wherever a state is handed on.
#[tactic(auto, unfolding(crate::specs::Slot::root_key, crate::specs::Slot::slot_of, words::specs::Choice::pick))]
#[inline(never)]
pub fn root_key(image: &[u8], counter: u8) -> [u8; 32]
    ensures { result ≡ root_key image.now counter }
{
    let at = slot_at(image, counter);
    if words::get(image, at) != 0 {
        return [255; 32];
    }
    words::part(image, at + 16)
}
