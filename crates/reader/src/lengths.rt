ghost use Rattle.std.specs.Prelude.{◌≡◌, ℕ};
ghost use Rattle.format.specs.Reading.{Asked, alone as alone_of, with_one as with_one_of, with_two as with_two_of};

use fault::Refusal;
use packet::Instruction;

// Three functions, as the format has three definitions: one over `[u8; N]` would hand `make` an array, and its clause
// would
// have to say how a function of a list is one of a byte, or of two.

/// An instruction of one byte.
pub(crate) fn alone(rest: &[u8], instruction: Instruction) -> Result<Instruction, Refusal>
    ensures { result ≡ alone_of instruction rest.now }
{
    match rest {
        [] => Ok(instruction),
        _ => Err(Refusal::InstructionLength),
    }
}

/// An instruction of two bytes, which `make` makes of the second: where that is `f`, it is read as the format says by
/// `f`.
pub(crate) fn with_one<F: FnOnce(u8) -> Result<Instruction, Refusal>>(
    rest: &[u8],
    make: F,
) -> Result<Instruction, Refusal>
    requires { F.IsAlwaysCallable make }
    ensures { (f : ℕ → Asked) → ((b : ℕ) (r : Asked) → F.post make b r → r ≡ f b) → result ≡ with_one_of f rest.now }
{
    match rest {
        [b] => make(*b),
        _ => Err(Refusal::InstructionLength),
    }
}

/// The same of three bytes, by the second and the third.
pub(crate) fn with_two<F: FnOnce(u8, u8) -> Result<Instruction, Refusal>>(
    rest: &[u8],
    make: F,
) -> Result<Instruction, Refusal>
    requires { F.IsAlwaysCallable make }
    ensures { (f : ℕ → ℕ → Asked) → ((b d : ℕ) (r : Asked) → F.post make b d r → r ≡ f b d) → result ≡ with_two_of f rest.now }
{
    match rest {
        [b, d] => make(*b, *d),
        _ => Err(Refusal::InstructionLength),
    }
}
