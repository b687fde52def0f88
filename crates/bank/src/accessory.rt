ghost use Rattle.std.specs.Prelude.{refl};
ghost use Rattle.std.proofs.Common.{arith};
ghost use Rattle.decoder.specs.Alone.{accessory_rules};

use crate::listener::Listener;
use crate::variables::{Variables, reply_variable};
use crate::window::Window;
use decoder::{Access, Accessory, AccessoryView, Effect, Heard, Role, Shown};
use memory::Memory;
use packet::Target;

impl<S: Shown> Listener for Accessory<S> {
    type View = AccessoryView;

    ghost rules = { accessory_rules S.Shown.kind };

    fn hears(&self, _view: &AccessoryView, target: Target) -> Option<Role> {
        self.role(target)
    }

    fn obeys(&mut self, view: &AccessoryView, heard: Heard) -> Option<Effect> {
        self.obey(view, heard)
    }

    fn power_up(&mut self) {
        *self = Accessory::new(self.address);
    }
}

impl<S: Shown> Variables for Accessory<S> {
    ghost OFFSET = { (accessory_rules S.Shown.kind).offset };

    const OFFSET: u16 = 512;

    ghost offset_is = { refl };

    ghost offset_most = { omega arith };

    fn view<M: Memory>(window: &mut Window<'_, M>, access: Option<Access>) -> AccessoryView {
        let config = window.get(reply_variable(Self::OFFSET));
        let named = None;
        Self::naming(window, AccessoryView { config, named }, access)
    }

    fn naming<M: Memory>(
        window: &mut Window<'_, M>,
        view: AccessoryView,
        access: Option<Access>,
    ) -> AccessoryView {
        AccessoryView {
            named: window.named(Self::OFFSET, access),
            ..view
        }
    }

    fn end_wait(&mut self) {
        self.state.waiting = None;
    }
}
