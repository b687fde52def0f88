ghost use Rattle.std.specs.Prelude.{◌≡◌};
ghost use Rattle.words.specs.Switches.{direction_text, switched_text};

/// Where a decoder is sent, forward or in reverse.
pub fn direction(forward: bool) -> &'static str
    ensures { result.now ≡ direction_text forward }
{
    if forward { "forward" } else { "reverse" }
}

/// How something is switched, on or off.
pub fn switched(on: bool) -> &'static str
    ensures { result.now ≡ switched_text on }
{
    if on { "on" } else { "off" }
}
