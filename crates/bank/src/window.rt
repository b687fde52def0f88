ghost use Rattle.std.specs.Prelude.{◌≡◌, ◌*◌, ◌/◌, length};
ghost use Rattle.bank.specs.Windows.{HasWindow, has_window};

use memory::Memory;
use packet::CvNumber;

/// How many windows a memory holds.
pub(crate) fn windows<M: Memory>(memory: &M) -> usize
    ensures { result ≡ length (M.Memory.cells memory.now) / 1024 }
{
    memory.count() / 1024
}

/// Whether the memory holds the window of the slot.
pub(crate) fn has_window<M: Memory>(memory: &M, slot: usize) -> bool
    ensures { result ≡ has_window slot (M.Memory.cells memory.now) }
{
    slot < windows(memory)
}

/// The variables of the decoder in a slot, in the memory that holds them.
#[derive(Drop)]
pub struct Window<'a, M: Memory> {
    memory: &'a mut M,
    slot: usize,
    ghost held: { HasWindow slot (M.Memory.cells memory.now) },
}

impl<'a, M: Memory> Window<'a, M> {
    ghost use Rattle.std.specs.Prelude.{◌≡◌, ◌+◌, ◌-◌, ◌*◌, slice_set};
    ghost use Rattle.decoder.specs.Alone.{variable};
    ghost use Rattle.bank.specs.Windows.{HasWindow};
    ghost use Rattle.bank.specs.Opened.{variables, Unchanged, Became};

    /// The window of the slot, which the memory holds: whoever opens one has looked. So nobody outside can call it.
    // Tried: an `Option<Window>` with no `requires`, but that the memory stays at `None` (`RestsIfNone`) gets no
    // generated proof.
    pub(crate) fn new(memory: &'a mut M, slot: usize) -> Window<'a, M>
        requires { HasWindow slot (M.Memory.cells memory.old) }
        ensures holds { result.memory.now ≡ memory.old }
        ensures lender { result.memory.ghost_name ≡ memory.entry.ghost_name }
        ensures slot { result.slot ≡ slot }
    {
        Window { memory, slot }
    }

    /// The cell of a variable.
    fn cell(&self, cv: CvNumber) -> usize
        ensures { result ≡ 1024 * self.now.slot + (cv.number - 1) }
    {
        1024 * self.slot + (usize::from(cv.get()) - 1)
    }

    /// The variable of a number.
    #[tactic(auto, using(crate::proofs::Windowed::in_window))]
    pub fn get(&mut self, cv: CvNumber) -> u8
        ensures answer { result ≡ variable (variables self.old) cv.number }
        ensures kept { Unchanged self.old self.new }
    {
        let cell = self.cell(cv);
        self.memory.read(cell).unwrap()
    }

    /// Puts a value into the variable of a number.
    pub fn put(&mut self, cv: CvNumber, value: u8)
        ensures { Became self.old self.new (slice_set (variables self.old) (cv.number - 1) value) }
    {
        let cell = self.cell(cv);
        let _ = self.memory.write(cell, value);
    }
}
