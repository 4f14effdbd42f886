// What a job stores after its signature, one aligned word of the slot a step, and the storing itself: here and nowhere else a
// word of the image is written.
//
// Contracts cite specs/: a list of stores for each kind of job, in document 01's order.
//
// kept: matches on enums that pick a value or a call, since each arm is proved by itself and none can be left out.

#![tactic(auto)]

ghost use Rattle.std.specs.Prelude.{◌≡◌, ◌<◌};
ghost use Rattle.plan.specs.Stores.{key_store, store_of};
ghost use Rattle.plan.specs.Storing.{stored};

use jobs::Kind;

// One aligned word stored: its place in the slot, and the word.
#[derive(Clone, Copy)]
pub struct Store {
    pub at: u8,
    pub word: u32,
}

// The words of a slot that are set to 0.
const ROOT_STATE_0: Store = Store { at: 0, word: 0 };

const COUNTER_STATE_0: Store = Store { at: 4, word: 0 };

const VALUE_0: Store = Store { at: 8, word: 0 };

// A key word of the frame.
fn key_store(i: u8, frame: [u8; 64]) -> Store
    requires { i < 8 }
    ensures { result ≡ key_store frame i }
{
    Store {
        at: 16 + 4 * i,
        word: words::get(&frame, 4 + 4 * i as usize),
    }
}

// Store i of a kind of job, from 0. Root state 0 comes last, and is what is read past the last store, too.
#[tactic(auto, unfolding(crate::specs::Stores::store_of, crate::specs::Stores::key_stores))]
pub fn store_of(kind: Kind, i: u8, frame: [u8; 64], kept: u32) -> Store
    ensures { result ≡ store_of kind i frame kept }
{
    match (kind, i) {
        (Kind::RootKeyAndCounter | Kind::RootKey, 0..8) => key_store(i, frame),
        (Kind::RootKeyAndCounter, 8) | (Kind::TemporaryKeyAndCounter, 0) => VALUE_0,
        (Kind::RootKeyAndCounter, 9) | (Kind::TemporaryKeyAndCounter, 1) => COUNTER_STATE_0,
        (Kind::Increment, 0) => Store { at: 8, word: kept },
        _ => ROOT_STATE_0,
    }
}

// Makes a store in a counter's slot.
#[tactic(auto, unfolding(crate::specs::Storing::stored))]
pub fn put_store(image: &mut [u8], counter: u8, store: Store)
    ensures { image.new ≡ stored image.old counter store }
{
    let at = image::slot_at(image, counter) + store.at as usize;
    words::put(image, at, store.word);
}
