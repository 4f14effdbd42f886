// The six functions of SHA-256: FIPS 180-4, section 4.1.2.
//
// Where a cheaper form than the standard's gives the same word, the code has the cheaper form, and the contract the standard's.
// kept: Σ0 beside Σ1, and σ0 beside σ1. Each is one line under the standard's name; one function of three numbers would stand beside
// the four, not in their place.
ghost use Rattle.std.specs.Prelude.{◌≡◌};
ghost use Rattle.sha256.specs.Functions.{Ch, Maj, Σ0, Σ1, σ0, σ1};

// Ch: where a bit of x is 1 the bit of y, else the bit of z.
#[tactic(auto, using(crate::proofs::Bitwise::ch_form))]
pub(crate) fn ch(x: u32, y: u32, z: u32) -> u32
    ensures { result ≡ Ch x y z }
{
    z ^ (x & (y ^ z))
}

// Maj: the bit that most of the three have. A round's x ^ y is the next round's y ^ z, so one of the two is at hand.
#[tactic(auto, using(crate::proofs::Bitwise::maj_form))]
pub(crate) fn maj(x: u32, y: u32, z: u32) -> u32
    ensures { result ≡ Maj x y z }
{
    y ^ ((x ^ y) & (y ^ z))
}

// Σ0, of a round: the rotations by 2, 13 and 22. They share 2, so the whole is rotated by it, once.
pub(crate) fn big_sigma0(x: u32) -> u32
    ensures { result ≡ Σ0 x }
{
    (x ^ x.rotate_right(11) ^ x.rotate_right(20)).rotate_right(2)
}

// Σ1, of a round: the rotations by 6, 11 and 25. They share 6.
pub(crate) fn big_sigma1(x: u32) -> u32
    ensures { result ≡ Σ1 x }
{
    (x ^ x.rotate_right(5) ^ x.rotate_right(19)).rotate_right(6)
}

// σ0, of the message schedule: the rotations by 7 and 18, and the shift by 3.
pub(crate) fn small_sigma0(x: u32) -> u32
    ensures { result ≡ σ0 x }
{
    x.rotate_right(7) ^ x.rotate_right(18) ^ (x >> 3)
}

// σ1, of the message schedule: the rotations by 17 and 19, and the shift by 10.
pub(crate) fn small_sigma1(x: u32) -> u32
    ensures { result ≡ σ1 x }
{
    x.rotate_right(17) ^ x.rotate_right(19) ^ (x >> 10)
}
