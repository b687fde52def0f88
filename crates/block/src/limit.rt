ghost use Rattle.std.specs.Prelude.{◌≡◌, length};
ghost use Rattle.block.specs.Contents.{length_checked};

use fault::{Fault, Refusal};

/// Refuses a block that is empty or has more than 512 bytes.
pub fn check_length(block: &[u8]) -> Result<(), Fault>
    ensures { result ≡ length_checked (length block.now) }
{
    match block.len() {
        1..=512 => Ok(()),
        _ => Err(Refusal::BlockLength.into()),
    }
}
