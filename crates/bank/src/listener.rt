ghost use Rattle.std.specs.Prelude.{◌≡◌, ℕ, List, Option};
ghost use Rattle.state.specs.Packing.{packed};
ghost use Rattle.decoder.specs.Accesses.{access_of};
ghost use Rattle.decoder.specs.Alone.{Rules, own, applied};
ghost use Rattle.decoder.specs.declared.effect.Access.{Access};

use crate::views::View;
use decoder::{Effect, Heard, Role};
use packet::Target;

/// What a decoder of any kind hears, and what it does then.
// An impl for mobile decoders and one for accessory decoders: those hear by their variables, these by their own address, and
// a trait over both would be this one again.
pub trait Listener: Sized {
    /// What decides among its variables.
    type View: View;

    // What decoders of this kind do.
    ghost rules: { Rules Self };

    /// By which address a packet to the target is heard, if it is heard.
    fn hears(&self, view: &Self::View, target: Target) -> Option<Role>
        ensures { (vars : List ℕ) (access : Option Access) → view.now ≡ Self.View.seen vars access → result ≡ rules.hears (own self.now vars) target };

    /// Obeys an instruction that is heard in a role, and answers what becomes of the variables.
    fn obeys(&mut self, view: &Self::View, heard: Heard) -> Option<Effect>
        ensures { (vars packet : List ℕ) → view.now ≡ Self.View.seen vars (access_of heard.instruction) → heard.packet ≡ packed packet → rules.obeys (own self.old vars) heard.role packet heard.instruction ≡ own self.new (applied result vars) };

    /// The power comes up.
    fn power_up(&mut self)
        ensures { self.new ≡ rules.starts self.old };
}
