// A line gathered in its room of 515 bytes, up to its newline.
//
// kept: the line and its length are two, as `lines::hear` takes them.
ghost use Rattle.std.specs.Prelude.{◌≡◌, ◌==◌, ◌<◌, min, length, take, position, MatchOption};
ghost use Rattle.words.specs.Words.{with_front};
ghost use Rattle.lines.specs.Feeding.{before_newline, keeping_all};

// What gathering bytes comes to: where the first newline stands, if one came, and how many bytes of the line are kept.
#[derive(Clone, Copy)]
pub struct Gathered {
    pub newline: Option<usize>,
    pub kept: usize,
}

// Where the first newline stands, if there is one.
fn first_newline(bytes: &[u8]) -> Option<usize>
    ensures { result ≡ position (λ byte. byte == 10) bytes.now }
{
    bytes.iter().position(|byte| *byte == b'\n')
}

// Keeps the bytes that there is room for: a line of 515 bytes is never known, whatever follows (proofs/TooLong.antt). Returns how
// many are kept.
#[tactic(auto, using(crate::proofs::Kept::kept_size, crate::proofs::Kept::kept_stands))]
fn keep(bytes: &[u8], line: &mut [u8; 515], kept: usize) -> usize
    ensures value { result ≡ length (keeping_all (take (min kept 515) line.old) bytes.now) }
    ensures line_after { line.new ≡ with_front (keeping_all (take (min kept 515) line.old) bytes.now) line.old }
{
    let start = kept.min(515);
    let fitting = bytes.len().min(515 - start);
    let end = start + fitting;
    line[start..end].copy_from_slice(&bytes[..fitting]);
    end
}

// Keeps the bytes before the first newline, or all where there is none.
pub(crate) fn gather(bytes: &[u8], line: &mut [u8; 515], kept: usize) -> Gathered
    ensures newline { MatchOption result.newline (before_newline bytes.now ≡ bytes.now) (λ at. (at ≡ length (before_newline bytes.now)) × (at < length bytes.now)) }
    ensures kept_value { result.kept ≡ length (keeping_all (take (min kept 515) line.old) (before_newline bytes.now)) }
    ensures line_after { line.new ≡ with_front (keeping_all (take (min kept 515) line.old) (before_newline bytes.now)) line.old }
{
    let newline = first_newline(bytes);
    let before = newline.unwrap_or(bytes.len());
    Gathered {
        newline,
        kept: keep(&bytes[..before], line, kept),
    }
}
