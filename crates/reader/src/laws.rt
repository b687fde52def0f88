ghost use Rattle.format.specs.Examples.{ExamplesRead};

/// A table of packets, with each field of each form, is read as the format says, and written so.
pub fn examples_read()
    ensures { ExamplesRead }
{}
