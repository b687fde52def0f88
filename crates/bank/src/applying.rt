ghost use Rattle.std.specs.Prelude.{Some};
ghost use Rattle.decoder.specs.Alone.{applied};
ghost use Rattle.decoder.specs.declared.effect.Effect.TheVariants.{HardReset};
ghost use Rattle.bank.specs.Opened.{variables, Became};

use crate::window::Window;
use decoder::Effect;
use memory::Memory;
use packet::CvNumber;

impl<M: Memory> Window<'_, M> {
    /// Does to the variables what an effect says.
    pub(crate) fn apply(&mut self, effect: Option<Effect>)
        ensures { Became self.old self.new (applied effect (variables self.old)) }
    {
        match effect {
            Some(Effect::Put { cv, value }) => self.put(cv, value),
            Some(Effect::HardReset) => self.reset(),
            None => {}
        }
    }

    /// Gives variables 19, 29, 31 and 32 their defaults.
    fn reset(&mut self)
        ensures { Became self.old self.new (applied (Some HardReset) (variables self.old)) }
    {
        self.put(CvNumber::CONSIST_ADDRESS, 0);
        self.put(CvNumber::CONFIGURATION, 2);
        self.put(CvNumber::INDEX_HIGH, 16);
        self.put(CvNumber::INDEX_LOW, 0);
    }
}
