// C entries for tests and benchmarks of the device, and for nothing else. A state goes in and out as its 383 bytes.
//
// kept: numbers in the place of a Result, as C has them.

#![tactic(auto)]

ghost use Rattle.std.specs.Prelude.{◌≡◌, [], ◌∷◌};
ghost use Rattle.packed.specs.Packed.{packed};
ghost use Rattle.packed.specs.Unpacked.{unpacked};
ghost use Rattle.device.specs.Calls.{device, powered_up, after_frame, output_after_frame, after_work, image_after_work};

// Power-up: its number; the state goes to `state`.
#[unsafe(no_mangle)]
pub extern "C" fn probe_power_up(image: &[u8], state: &mut [u8; 383]) -> u32
    ensures value { result ≡ (powered_up image.now).number }
    ensures state_after { state.new ≡ packed (powered_up image.now).state }
{
    let up = device::power_up(image);
    packed::pack(up.state, state);
    refusals::number_of(up.outcome)
}

// One frame: its number; the state is taken from `state` and goes back there.
#[unsafe(no_mangle)]
pub extern "C" fn probe_frame(
    image: &[u8],
    state: &mut [u8; 383],
    frame: &[u8],
    output: &mut [u8],
) -> u32
    ensures value { result ≡ (after_frame image.now (unpacked state.old) frame.now).number }
    ensures state_after { state.new ≡ packed (after_frame image.now (unpacked state.old) frame.now).state }
    ensures output_after { output.new ≡ output_after_frame image.now (unpacked state.old) frame.now output.old }
{
    let s = packed::unpack(state);
    let after = device::frame(image, s, frame, output);
    packed::pack(after.state, state);
    refusals::number_of(after.outcome)
}

// Work: its number; the steps done go to `steps`.
#[unsafe(no_mangle)]
pub extern "C" fn probe_work(
    image: &mut [u8],
    state: &mut [u8; 383],
    quota: u32,
    steps: &mut [u32; 1],
) -> u32
    ensures value { result ≡ (after_work (device image.old (unpacked state.old)) quota).number }
    ensures state_after { state.new ≡ packed (after_work (device image.old (unpacked state.old)) quota).state }
    ensures steps_after { steps.new ≡ (after_work (device image.old (unpacked state.old)) quota).steps ∷ [] }
    ensures image_after { image.new ≡ image_after_work (device image.old (unpacked state.old)) quota }
{
    let s = packed::unpack(state);
    let worked = device::work(image, s, quota);
    packed::pack(worked.state, state);
    *steps = [worked.steps];
    refusals::number_of(worked.outcome)
}

// A state in and out, and nothing else: what the other entries cost beside their call.
#[unsafe(no_mangle)]
pub extern "C" fn probe_state(state: &mut [u8; 383])
    ensures { state.new ≡ packed (unpacked state.old) }
{
    packed::pack(packed::unpack(state), state);
}
