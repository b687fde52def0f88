ghost use Rattle.std.specs.Prelude.{refl};
ghost use Rattle.std.proofs.Common.{arith};
ghost use Rattle.decoder.specs.Alone.{mobile_rules};

use crate::listener::Listener;
use crate::variables::{Variables, reply_variable};
use crate::window::Window;
use decoder::{Access, Effect, Heard, Mobile, MobileView, Role, own_address};
use memory::Memory;
use packet::{CvNumber, Target};

impl Listener for Mobile {
    type View = MobileView;

    ghost rules = { mobile_rules };

    fn hears(&self, view: &MobileView, target: Target) -> Option<Role> {
        view.role(target)
    }

    fn obeys(&mut self, view: &MobileView, heard: Heard) -> Option<Effect> {
        self.obey(view, heard)
    }

    fn power_up(&mut self) {
        *self = Mobile::new();
    }
}

impl Variables for Mobile {
    ghost OFFSET = { mobile_rules.offset };

    const OFFSET: u16 = 0;

    ghost offset_is = { refl };

    ghost offset_most = { omega arith };

    fn view<M: Memory>(window: &mut Window<'_, M>, access: Option<Access>) -> MobileView {
        let config = window.get(reply_variable(Self::OFFSET));
        let short = window.get(CvNumber::SHORT_ADDRESS);
        let high = window.get(CvNumber::LONG_ADDRESS_HIGH);
        let low = window.get(CvNumber::LONG_ADDRESS_LOW);
        let consist = window.get(CvNumber::CONSIST_ADDRESS);
        let view = MobileView {
            own: own_address(config, short, high, low),
            consist,
            config,
            named: None,
        };
        Self::naming(window, view, access)
    }

    fn naming<M: Memory>(
        window: &mut Window<'_, M>,
        view: MobileView,
        access: Option<Access>,
    ) -> MobileView {
        MobileView {
            named: window.named(Self::OFFSET, access),
            ..view
        }
    }

    fn end_wait(&mut self) {
        self.state.waiting = None;
    }
}
