ghost use Rattle.std.specs.Prelude.{◌≡◌, ◌+◌, ◌≤◌};
ghost use Rattle.state.specs.Groups.{low_bits, pasted, lit, switched, function_at};

use crate::bits::has_bit;
use crate::functions::Functions;
use packet::FunctionGroup;

/// The lowest bits of a byte, from bit 0 on.
fn low_bits<const N: usize>(byte: u8) -> [bool; N]
    requires { N ≤ 8 }
    ensures { result ≡ low_bits N byte }
{
    std::array::from_fn(|bit| has_bit(byte, (bit % 8) as u8))
}

impl Functions {
    fn put<const N: usize>(&mut self, first: usize, bits: u8)
        requires size { N ≤ 8 }
        requires room { first + N ≤ 69 }
        ensures { self.new.on ≡ pasted self.old.on first (low_bits N bits) }
    {
        self.on[first..first + N].copy_from_slice(&low_bits::<N>(bits));
    }

    /// FL as bit 4 has it.
    pub fn put_light(&mut self, bits: u8)
        ensures { self.new.on ≡ lit self.old.on bits }
    {
        self.on[0] = has_bit(bits, 4);
    }

    /// Switches each function of a group by its bit. FL is switched only where `light` says so.
    #[tactic(auto, using(crate::proofs::Eights::eight))]
    pub fn switch(&mut self, group: FunctionGroup, bits: u8, light: bool)
        ensures { self.new.on ≡ switched self.old.on group bits light }
    {
        let lowest = group.lowest();
        match group {
            FunctionGroup::F0ToF4 => {
                self.put::<4>(lowest, bits);
                if light {
                    self.put_light(bits);
                }
            }
            FunctionGroup::F5ToF8 | FunctionGroup::F9ToF12 => self.put::<4>(lowest, bits),
            _ => self.put::<8>(lowest, bits),
        }
    }

    // Two calls for one answer: a caller has a function's number as a byte, or any number that somebody asked for, and a
    // bare literal names no type where one call takes both.

    /// Whether the function is on, if there is one of that number.
    pub fn get(&self, number: u8) -> Option<bool>
        ensures { result ≡ function_at self.now.on number }
    {
        self.numbered(u16::from(number))
    }

    /// Whether the function is on, if there is one of that number, which may be any.
    pub fn numbered(&self, number: u16) -> Option<bool>
        ensures { result ≡ function_at self.now.on number }
    {
        self.on.get(usize::from(number)).copied()
    }
}
