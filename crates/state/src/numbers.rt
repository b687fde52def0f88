ghost use Rattle.std.specs.Prelude.{◌≡◌};
ghost use Rattle.state.specs.Kept.{all_states, low_states, kept_after, state_at};

use crate::bits::{has_bit, with_bit};
use crate::states::BinaryStates;

fn all_states(on: bool) -> [u8; 256]
    ensures { result ≡ all_states on }
{
    if on {
        let mut bits = [255u8; 256];
        bits[0] = 254;
        bits
    } else {
        [0u8; 256]
    }
}

impl BinaryStates {
    /// Every kept state, 1 to 2047.
    pub fn put_all(&mut self, on: bool)
        ensures { self.new.bits ≡ all_states on }
    {
        self.bits = all_states(on);
    }

    /// The states 1 to 127.
    pub fn put_low(&mut self, on: bool)
        ensures { self.new.bits ≡ low_states self.old.bits on }
    {
        let front = all_states(on);
        self.bits[0..16].copy_from_slice(&front[0..16]);
    }

    /// One state from 1 to 2047; another number changes nothing.
    pub fn put(&mut self, number: u16, on: bool)
        ensures { self.new.bits ≡ kept_after self.old.bits number on }
    {
        if number == 0 || number > 2047 {
            return;
        }
        let place = usize::from(number / 8);
        self.bits[place] = with_bit(self.bits[place], (number % 8) as u8, on);
    }

    /// Whether the state is on, if there is one of that number.
    pub fn get(&self, number: u16) -> Option<bool>
        ensures { result ≡ state_at self.now.bits number }
    {
        match number {
            1..=2047 => {
                let byte = self.bits[usize::from(number / 8)];
                Some(has_bit(byte, (number % 8) as u8))
            }
            _ => None,
        }
    }
}
