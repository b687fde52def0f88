ghost use Rattle.std.specs.Prelude.{◌≡◌, ◌%◌};
ghost use Rattle.state.specs.Bits.{bit_of, with_bit};

/// Whether the bit, 0 to 7, is set. A higher number means the bit of its remainder by 8.
pub fn has_bit(byte: u8, bit: u8) -> bool
    ensures { result ≡ bit_of byte (bit % 8) }
{
    (byte >> (bit % 8)) % 2 == 1
}

/// The byte with that bit set or cleared.
#[tactic(auto, using(crate::proofs::Tables::or_bit, crate::proofs::Tables::and_bit))]
pub fn with_bit(byte: u8, bit: u8, on: bool) -> u8
    ensures { result ≡ with_bit byte (bit % 8) on }
{
    let weight = 1 << (bit % 8);
    if on { byte | weight } else { byte & !weight }
}
