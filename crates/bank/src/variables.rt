ghost use Rattle.std.specs.Prelude.{◌≡◌, ℕ, ◌≤◌, Option, None};
ghost use Rattle.decoder.specs.Accesses.{reply_variable};
ghost use Rattle.decoder.specs.Alone.{own, named as named_in};
ghost use Rattle.bank.specs.Hearers.{is_heard, after_hearing};
ghost use Rattle.bank.specs.Opened.{variables, Unchanged, Became};

use crate::listener::Listener;
use crate::window::Window;
use decoder::{Access, Heard, NamedVariable, access_of, barred};
use memory::Memory;
use packet::{CvNumber, Packet};
use state::WaitingWrite;

/// A decoder of any kind, at the variables of its slot.
pub trait Variables: Listener {
    ghost OFFSET: { ℕ };

    /// How many variables stand before the kind's own.
    const OFFSET: u16;

    /// Reads the variables that decide, and the one that an access names.
    fn view<M: Memory>(window: &mut Window<'_, M>, access: Option<Access>) -> Self::View
        ensures answer { result ≡ Self.View.seen (variables window.old) access }
        ensures kept { Unchanged window.old window.new };

    /// The view of the same variables and of the one that an access names, by one that was read without an access.
    // So what a packet that is heard decides by is read once.
    fn naming<M: Memory>(
        window: &mut Window<'_, M>,
        view: Self::View,
        access: Option<Access>,
    ) -> Self::View
        ensures answer { view ≡ Self.View.seen (variables window.old) None
            → result ≡ Self.View.seen (variables window.old) access }
        ensures kept { Unchanged window.old window.new }
    {
        let _ = view;
        Self::view(window, access)
    }

    /// No write waits any more.
    fn end_wait(&mut self)
        ensures { self.new ≡ Self.Listener.rules.unwaits self.old };

    /// A packet comes: the decoder obeys it if it hears it, and answers whether it does.
    fn hear<M: Memory>(&mut self, window: &mut Window<'_, M>, packet: &[u8], said: Packet) -> bool
        ensures heard { result ≡ is_heard Self.Listener.rules said.target (own self.old (variables window.old)) }
        ensures rec { self.new
            ≡ (after_hearing Self.Listener.rules packet.now said.target said.instruction
            (own self.old (variables window.old))).rec }
        ensures vars { Became window.old window.new
            (after_hearing Self.Listener.rules packet.now said.target said.instruction
            (own self.old (variables window.old))).vars }
    {
        // Most packets are for others: only where one is heard the variable that it names is read.
        let others = Self::view(window, None);
        let Some(role) = self.hears(&others, said.target) else {
            return false;
        };
        let view = Self::naming(window, others, access_of(said.instruction));
        let heard = Heard {
            role,
            packet: WaitingWrite::new(packet),
            instruction: said.instruction,
        };
        let effect = self.obeys(&view, heard);
        window.apply(effect);
        true
    }

    // The offset is that of the kind's rules.
    ghost offset_is: { OFFSET ≡ Self.Listener.rules.offset };

    // So the last of the kind's own variables have numbers too.
    ghost offset_most: { OFFSET ≤ 512 };
}

/// The variable whose bit 3 enables replies, where so many stand before the kind's own.
pub(crate) fn reply_variable(offset: u16) -> CvNumber
    requires { offset ≤ 512 }
    ensures { result.number ≡ reply_variable offset }
{
    CvNumber::new(offset + 29).unwrap()
}

impl<M: Memory> Window<'_, M> {
    /// The variable that an access names, if there is one, where so many stand before the kind's own.
    pub(crate) fn named(&mut self, offset: u16, access: Option<Access>) -> Option<NamedVariable>
        ensures answer { result ≡ named_in offset (variables self.old) access }
        ensures kept { Unchanged self.old self.new }
    {
        let cv = access?.cv;
        Some(NamedVariable {
            value: self.get(cv),
            read_only: barred(offset, cv.get()),
        })
    }
}
