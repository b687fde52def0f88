ghost use Rattle.std.specs.Prelude.{◌≡◌};
ghost use Rattle.decoder.specs.Accessories.{accessory_after, accessory_plan};

use crate::access::access_effect;
use crate::effect::Effect;
use crate::heard::Heard;
use crate::records::Accessory;
use crate::role::Role;
use crate::shown::Shown;
use crate::view::AccessoryView;
use packet::Target;

impl<S: Shown> Accessory<S> {
    /// By which address a packet to `target` is heard, if it is heard.
    pub fn role(&self, target: Target) -> Option<Role>
        ensures { result ≡ S.Shown.kind.role self.now.address target }
    {
        S::role(self.address, target)
    }

    /// Obeys a packet that it hears, and answers what becomes of the variables.
    pub fn obey(&mut self, view: &AccessoryView, heard: Heard) -> Option<Effect>
        ensures effect { result ≡ accessory_plan S.Shown.kind self.old.state view.now heard }
        ensures after { self.new.state ≡ accessory_after S.Shown.kind self.old.state view.now heard }
        ensures address { self.new.address ≡ self.old.address }
    {
        let state = &mut self.state;
        let accessed = heard.accessed(view.named);
        let shown = state.shown.after(heard.instruction);
        let acted = shown.is_some() || heard.accesses(state.waiting, accessed);
        state.shown = shown.unwrap_or(state.shown);
        // Not shared with a mobile decoder, which a reset brings to its start between these two lines and what is
        // noted then.
        state.waiting = heard.waits_after(state.waiting);
        state.reply = heard.reply(view.config, accessed, acted);
        if acted { access_effect(accessed) } else { None }
    }
}
