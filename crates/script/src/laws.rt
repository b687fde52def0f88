ghost use Rattle.script.specs.Addresses.{FittingsAnswered};
ghost use Rattle.script.specs.Asked.{RequestsAnswered};
ghost use Rattle.script.specs.Laws.{CountsAddUp};
ghost use Rattle.script.specs.Lending.{LendingsAnswered};
ghost use Rattle.script.specs.Records.{RecordsMet};

/// As many packets of a block are heard, unheard and refused together as it carries, and heard are
/// those that some decoder hears.
pub fn counts_add_up()
    ensures { CountsAddUp }
{}

/// A setting is read back, and what is told of functions, binary states and all of the state is
/// what stands.
pub fn requests_answered()
    ensures { RequestsAnswered }
{}

/// The addresses that are fitted are those of packets to one decoder, and a fitting is refused for its first cause.
pub fn fittings_answered()
    ensures { FittingsAnswered }
{}

/// A board that is lent too little refuses, and nothing changes; else it answers by its decoders.
pub fn lendings_answered()
    ensures { LendingsAnswered }
{}

/// Every decoder meets each power-up of a block in its place, and each packet that it then hears.
pub fn records_met()
    ensures { RecordsMet }
{}
