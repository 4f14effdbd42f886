// The comparison of secrets: it looks at every byte, whatever it finds, and only then says yes or no.
//
// Which bytes differ, and how many, picks no branch and no index; lengths are not secret.

#![tactic(auto)]

ghost use Rattle.std.specs.Prelude.{◌≡◌, length};
ghost use Rattle.compare.specs.Compare.{same_bytes, differences};

// The bits in which two slices of one length differ, all of them together.
fn difference(a: &[u8], b: &[u8]) -> u8
    requires { length a.now ≡ length b.now }
    ensures { result ≡ differences (length a.now) a.now b.now }
{
    a.iter().zip(b).fold(0, |d, (x, y)| d | (x ^ y))
}

// Whether two slices hold the same bytes.
#[tactic(auto, using(crate::proofs::Agree::agree, crate::proofs::Agree::lengths))]
pub fn same(a: &[u8], b: &[u8]) -> bool
    ensures { result ≡ same_bytes a.now b.now }
{
    a.len() == b.len() && difference(a, b) == 0
}
