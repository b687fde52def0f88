ghost use Rattle.std.specs.Prelude.{◌≡◌, ◌≤◌};

use arrayvec::ArrayVec;

/// The bytes of a target or of an instruction.
pub(crate) type Bytes = ArrayVec<u8, 3>;

pub(crate) fn bytes<const N: usize>(items: [u8; N]) -> Bytes
    requires { N ≤ 3 }
    ensures { result.items ≡ items.entry }
{
    ArrayVec::try_from(&items[..]).unwrap()
}
