ghost use Rattle.decoder.specs.Examples.{Examples};
ghost use Rattle.decoder.specs.Laws.{Laws as RulesKeep};
ghost use Rattle.decoder.specs.Persistence.{Persistence};

/// Twelve packets and what the decoders hold afterwards, from the rules.
pub fn examples_hold()
    ensures { Examples }
{}

/// Each bit of a variable is as the last setting or write pair that names it gave it.
pub fn variables_persist()
    ensures { Persistence }
{}

/// What the rules come to: who hears what, who keeps what, what verifies and writes are answered, how speed, a consist and a
/// reset act, which functions, states and outputs are switched, and how a decoder begins.
pub fn rules_keep()
    ensures { RulesKeep }
{}
