// The functions on words (FIPS 180-4, 4.1.2).
ghost use Rattle.std.specs.Prelude.{◌≡◌};
ghost use Rattle.compression.specs.Words.{Ch, Maj, Σ0, Σ1, σ0, σ1};

// The standard's form with fewer operations.
#[tactic(auto, using(crate::proofs::Bits::ch_same))]
pub fn ch(x: u32, y: u32, z: u32) -> u32
    ensures { result ≡ Ch x y z }
{
    z ^ (x & (y ^ z))
}

// The standard's form with fewer operations.
#[tactic(auto, using(crate::proofs::Bits::maj_same))]
pub fn maj(x: u32, y: u32, z: u32) -> u32
    ensures { result ≡ Maj x y z }
{
    y ^ ((x ^ y) & (y ^ z))
}

#[tactic(auto, using(crate::proofs::Bits::big_sigma0))]
pub fn big_sigma0(x: u32) -> u32
    ensures { result ≡ Σ0 x }
{
    x.rotate_right(2) ^ x.rotate_right(13) ^ x.rotate_right(22)
}

#[tactic(auto, using(crate::proofs::Bits::big_sigma1))]
pub fn big_sigma1(x: u32) -> u32
    ensures { result ≡ Σ1 x }
{
    x.rotate_right(6) ^ x.rotate_right(11) ^ x.rotate_right(25)
}

#[tactic(auto, using(crate::proofs::Bits::small_sigma0))]
pub fn small_sigma0(x: u32) -> u32
    ensures { result ≡ σ0 x }
{
    x.rotate_right(7) ^ x.rotate_right(18) ^ (x >> 3)
}

#[tactic(auto, using(crate::proofs::Bits::small_sigma1))]
pub fn small_sigma1(x: u32) -> u32
    ensures { result ≡ σ1 x }
{
    x.rotate_right(17) ^ x.rotate_right(19) ^ (x >> 10)
}
