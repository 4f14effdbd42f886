// The lines of rpmcrun: what each asks for, and its turn: what it does to the device, and what is printed; and how an input is split
// into them.
//
// Contracts cite specs/. A line is taken without its newline, and printed with it: `out` is the line that is printed, lent to be filled
// anew, as the functions of crates/text take it.
//
// kept: the image and the state are two parameters, as in the calls of crates/device, which write the one in place and give the other
// back; a struct of both would be taken apart at each of these calls.

#![tactic(auto)]

mod gathering;

ghost use Rattle.std.specs.Prelude.{◌≡◌, ◌≤◌, min, length, take};
ghost use Rattle.words.specs.Words.{with_front};
ghost use Rattle.hexadecimal.specs.Hex.{readable};
ghost use Rattle.image.specs.Header.{count};
ghost use Rattle.text.specs.Printing.{count_line, unknown_line};
ghost use Rattle.device.specs.Calls.{device};
ghost use Rattle.lines.specs.Turn.{powered, framed, worked, shown, read, turn, Gives, GivesTurn};
ghost use Rattle.lines.specs.Feeding.{conversation, under_way, feed, ended, before_newline, up_to_newline, keeping_all, GivesFed, GivesEnd};
ghost use Rattle.lines.specs.Start.{first_image};

use gathering::gather;
use state::State;
use text::Line;

// What a turn leaves, beside the line that is printed: the state afterwards.
#[derive(Clone, Copy)]
pub struct Turned {
    pub state: State,
}

// What hearing bytes comes to, beside the line that is printed: how many were used, how many of the next line are kept, and the state
// afterwards.
#[derive(Clone, Copy)]
pub struct Heard {
    pub used: usize,
    pub kept: usize,
    pub state: State,
}

// The image that the program starts with.
#[tactic(auto, unfolding(crate::specs::Start::first_image, words::specs::Table::spread, words::specs::Words::put_word, words::specs::Choice::pick))]
pub fn first_image() -> [u8; 208]
    ensures { result ≡ first_image }
{
    let mut image = [0xFFu8; 208];
    words::put(&mut image, 0, 4);
    words::put(&mut image, 4, 16);
    words::put(&mut image, 8, 48);
    words::put(&mut image, 12, 208);
    image
}

// The first line, the count.
pub fn first_line(image: &[u8], out: &mut Line)
    ensures { out.new.items ≡ count_line (count image.now) }
{
    text::count_line(image::count(image), out);
}

// Any other line: `?`, and nothing is touched.
fn unknown(s: State, out: &mut Line) -> Turned
    ensures { Gives unknown_line s result out.new }
{
    text::unknown_line(out);
    Turned { state: s }
}

// `P`: power-up.
#[tactic(auto, unfolding(crate::specs::Turn::powered))]
fn powered(image: &[u8], out: &mut Line) -> Turned
    ensures { GivesTurn (powered image.now) result out.new }
{
    let answer = device::power_up(image);
    text::number_line(b'P', refusals::number_of(answer.outcome), out);
    Turned {
        state: answer.state,
    }
}

// `F`: a frame of at least one byte. It gets no room for output, as none is printed.
#[tactic(auto, unfolding(crate::specs::Turn::framed, words::specs::Choice::pick))]
fn sent(image: &[u8], s: State, frame: &[u8], out: &mut Line) -> Turned
    ensures { GivesTurn (framed (device image.now s) frame.now) result out.new }
{
    if frame.is_empty() {
        return unknown(s, out);
    }
    let answer = device::frame(image, s, frame, &mut []);
    text::number_line(b'F', refusals::number_of(answer.outcome), out);
    Turned {
        state: answer.state,
    }
}

// `F`, of the frame's digits.
#[tactic(auto, using(crate::proofs::Prefix::front_fits, crate::proofs::Prefix::front_is))]
fn framed(image: &[u8], s: State, digits: &[u8], out: &mut Line) -> Turned
    ensures { GivesTurn (framed (device image.now s) (readable 256 digits.now)) result out.new }
{
    let mut room = [0u8; 256];
    let n = hexadecimal::read(digits, &mut room);
    sent(image, s, &room[..n], out)
}

// `S`: a quota of 0 to 255.
#[tactic(auto, unfolding(crate::specs::Turn::worked, words::specs::Choice::pick))]
fn worked(image: &mut [u8], s: State, quota: Option<u32>, out: &mut Line) -> Turned
    ensures gives_turn { GivesTurn (worked (device image.old s) quota) result out.new }
    ensures image_after { image.new ≡ (worked (device image.old s) quota).after.image }
{
    match quota {
        Some(quota @ 0..=255) => {
            let answer = device::work(image, s, quota);
            text::work_line(refusals::number_of(answer.outcome), answer.steps, out);
            Turned {
                state: answer.state,
            }
        }
        _ => unknown(s, out),
    }
}

// `R`: the bytes that a read fills, at most 256.
#[tactic(auto, unfolding(crate::specs::Turn::shown, text::specs::Printing::fitting_read_line, words::specs::Choice::pick))]
fn shown(image: &[u8], s: State, bytes: &mut [u8], out: &mut Line) -> Turned
    requires { length bytes.old ≤ 256 }
    ensures { GivesTurn (shown (device image.now s) bytes.old) result out.new }
{
    let answer = device::frame(image, s, &[0x96, 0x00], bytes);
    text::read_line(refusals::number_of(answer.outcome), bytes, out);
    Turned {
        state: answer.state,
    }
}

// `R`: a read of 1 to 256 bytes.
#[tactic(auto, unfolding(crate::specs::Turn::read, words::specs::Choice::pick), using(crate::proofs::Prefix::zeros_front))]
fn read(image: &[u8], s: State, size: Option<u32>, out: &mut Line) -> Turned
    ensures { GivesTurn (read (device image.now s) size) result out.new }
{
    match size {
        Some(size @ 1..=256) => {
            let mut room = [0u8; 256];
            shown(image, s, &mut room[..size as usize], out)
        }
        _ => unknown(s, out),
    }
}

// The turn of a line.
#[tactic(auto, unfolding(crate::specs::Turn::turn, crate::specs::Turn::alone, crate::specs::Turn::opens, crate::specs::Turn::powered, words::specs::Choice::pick), using(crate::proofs::Turns::rest, crate::proofs::Turns::framed_keeps, crate::proofs::Turns::read_keeps))]
fn turn(image: &mut [u8], s: State, line: &[u8], out: &mut Line) -> Turned
    ensures gives_turn { GivesTurn (turn (device image.old s) line.now) result out.new }
    ensures image_after { image.new ≡ (turn (device image.old s) line.now).after.image }
{
    match line {
        b"P" => powered(image, out),
        [b'F', b' ', digits @ ..] => framed(image, s, digits, out),
        [b'S', b' ', quota @ ..] => worked(image, s, text::number_in(quota), out),
        [b'R', b' ', size @ ..] => read(image, s, text::number_in(size), out),
        _ => unknown(s, out),
    }
}

// Feeds the bytes up to the first newline, with it, or all where there is none. The line under way is `kept` bytes of `line`, or all
// of them where that is more. What is gathered of it stays there, also where it was answered.
//
// kept: `line` and `kept` are two parameters, since `gives_fed` and `line_after` hold of any `kept`; a type that holds a line of at most
// 515 bytes would ask more of callers.
#[tactic(auto, unfolding(crate::specs::Feeding::answered), using(crate::proofs::Newline::feed_line, crate::proofs::Newline::feed_unended, crate::proofs::Prefix::front_fits, crate::proofs::Prefix::front_is))]
pub fn hear(
    bytes: &[u8],
    image: &mut [u8],
    s: State,
    line: &mut [u8; 515],
    kept: usize,
    out: &mut Line,
) -> Heard
    ensures gives_fed { GivesFed (feed (up_to_newline bytes.now) (under_way image.old s line.old kept)) result out.new }
    ensures used_value { result.used ≡ length (up_to_newline bytes.now) }
    ensures image_after { image.new ≡ (feed (up_to_newline bytes.now) (under_way image.old s line.old kept)).after.device.image }
    ensures line_after { line.new ≡ with_front (keeping_all (take (min kept 515) line.old) (before_newline bytes.now)) line.old }
{
    let gathered = gather(bytes, line, kept);
    let Some(before) = gathered.newline else {
        out.clear();
        return Heard {
            used: bytes.len(),
            kept: gathered.kept,
            state: s,
        };
    };
    let turned = turn(image, s, &line[..gathered.kept], out);
    Heard {
        used: before + 1,
        kept: 0,
        state: turned.state,
    }
}

// The last line of an input that has ended, if there is one.
#[tactic(auto, unfolding(crate::specs::Feeding::ended, crate::specs::Feeding::answered, words::specs::Choice::pick))]
fn last(image: &mut [u8], s: State, line: &[u8], out: &mut Line) -> Turned
    ensures gives_end { GivesEnd (conversation (device image.old s) line.now) result out.new }
    ensures image_after { image.new ≡ (ended (conversation (device image.old s) line.now)).after.device.image }
{
    if line.is_empty() {
        out.clear();
        return Turned { state: s };
    }
    turn(image, s, line, out)
}

// At the end of the input a last line without newline is answered too. The line is `kept` bytes of `line`, and all where that is more.
//
// kept: `line` and `kept` are two parameters as in `hear`: `gives_end` holds of any `kept`.
pub fn ended(image: &mut [u8], s: State, line: &[u8; 515], kept: usize, out: &mut Line) -> Turned
    ensures gives_end { GivesEnd (under_way image.old s line.now kept) result out.new }
    ensures image_after { image.new ≡ (ended (under_way image.old s line.now kept)).after.device.image }
{
    last(image, s, &line[..kept.min(515)], out)
}
