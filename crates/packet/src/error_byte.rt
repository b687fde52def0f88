ghost use Rattle.std.specs.Prelude.{◌≡◌};
ghost use Rattle.packet.specs.Parity.{parity as parity_of};

/// The XOR of all bytes: zero for a whole packet, the error byte for what stands before it.
pub fn parity(bytes: &[u8]) -> u8
    ensures { result ≡ parity_of bytes.now }
{
    bytes.iter().fold(0, |all, byte| all ^ byte)
}
