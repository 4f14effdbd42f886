// The program rpmcrun: a device with four counters, driven by the lines of standard input. Each answer is written before more is
// read.
//
// It only reads and writes here. What bytes do and what is printed is made by proved functions on slices, in crates/lines.

#![tactic(auto)]

ghost use Rattle.std.specs.Prelude.{◌≡◌, [], OnOk};
ghost use Rattle.device.specs.Calls.{device};
ghost use Rattle.state.specs.Parts.{power_on};
ghost use Rattle.lines.specs.Feeding.{Conversation, conversation, under_way, feed};
ghost use Rattle.lines.specs.Start.{first_image};

use state::State;
use std::io;
use std::io::{ErrorKind, Read, Write};
use std::marker::Model;
use std::rt::HostRuntime;
use text::Line;

// How far the conversation has come: the device's image and state, and the line under way, of which the first bytes are kept.
//
// kept: the line and its length are two fields, as `lines::hear` takes them.
#[derive(Drop)]
struct Talk {
    image: [u8; 208],
    state: State,
    line: [u8; 515],
    kept: usize,
}

// A clause sees the conversation that it is.
impl Model for Talk {
    ghost Value = { Conversation };

    ghost view = { λ talk. under_way talk.image talk.state talk.line talk.kept };
}

impl Talk {
    // A conversation with a device that has its first image.
    fn new() -> Talk
        ensures { result ≡ conversation (device first_image power_on) [] }
    {
        Talk {
            image: lines::first_image(),
            state: state::power_on(),
            line: [0u8; 515],
            kept: 0,
        }
    }

    // Feeds the bytes that were read to the conversation, a line at a time, and writes each answer, which fills the line `out`. Where
    // each could be written, all bytes were fed. The state goes from line to line by value, and not by way of the struct, which would
    // copy it once more.
    #[tactic(auto, unfolding(lines::specs::Feeding::feed))]
    fn hear(&mut self, rt: &HostRuntime, bytes: &[u8], out: &mut Line) -> io::Result<()>
        ensures { OnOk result (self.new ≡ (feed bytes.now self.old).after) }
    {
        let mut rest = bytes;
        let mut state = self.state;
        while !rest.is_empty() {
            let heard = lines::hear(rest, &mut self.image, state, &mut self.line, self.kept, out);
            state = heard.state;
            self.kept = heard.kept;
            rest = &rest[heard.used..];
            send(rt, out)?;
        }
        self.state = state;
        Ok(())
    }

    // The end of the input: a last line without newline is answered too.
    fn end(&mut self, rt: &HostRuntime, out: &mut Line) -> io::Result<()> {
        lines::ended(&mut self.image, self.state, &self.line, self.kept, out);
        send(rt, out)
    }
}

// Writes a text in one write; where it is empty, in none. Always inlined: most lines are a few characters.
#[inline(always)]
fn send(rt: &HostRuntime, text: &[u8]) -> io::Result<()> {
    rt.stdout().write_all(text)
}

// Answers the lines of standard input until it ends or cannot be read, or fails where an answer cannot be written.
fn converse(rt: &HostRuntime) -> io::Result<()> {
    let mut talk = Talk::new();
    let mut out = Line::new();
    lines::first_line(&talk.image, &mut out);
    send(rt, &out)?;
    let mut chunk = [0u8; 65536];
    // a proved loop has to end, and nothing says that the input does: so reads are counted, up to a number that no run uses up
    for _ in 0..u64::MAX {
        match rt.stdin().read(&mut chunk) {
            Ok(0) => return talk.end(rt, &mut out),
            Ok(n) => talk.hear(rt, &chunk[..n], &mut out)?,
            // a read that a signal has interrupted is made again
            Err(why) if why.kind() == ErrorKind::Interrupted => {}
            // after any other the input has not ended, so the line under way is no line
            Err(why) => {
                let _ = eprintln!(rt; "rpmcrun: standard input: {why}");
                return Ok(());
            }
        }
    }
    Ok(())
}

fn main(rt: HostRuntime) {
    // where an answer could not be written, nobody reads, and the program just ends
    let _ = converse(&rt);
}
