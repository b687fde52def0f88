ghost use Rattle.std.specs.Prelude.{◌≡◌, ◌*◌, ◌%◌, ◌^◌, bit_xor};

use std::fmt;

/// FNV-1a of 64 bits over the bytes so far.
#[derive(Clone, Copy, PartialEq, Eq)]
pub struct Digest(u64);

fn step(hash: u64, byte: u8) -> u64
    ensures { result ≡ bit_xor hash byte * 1099511628211 % 2 ^ 64 }
{
    (hash ^ u64::from(byte)).wrapping_mul(1099511628211)
}

impl Digest {
    pub(crate) fn new() -> Digest {
        Digest(14695981039346656037)
    }

    pub(crate) fn add(&mut self, bytes: &[u8]) {
        self.0 = bytes.iter().fold(self.0, |hash, byte| step(hash, *byte));
    }
}

impl fmt::Display for Digest {
    fn fmt<W: fmt::Write>(&self, f: &mut fmt::Formatter<W>) -> fmt::Result {
        let hash = self.0;
        write!(f, "{hash:016x}")
    }
}
