ghost use Rattle.std.specs.Prelude.{List, ℕ, Option};
ghost use Rattle.decoder.specs.declared.effect.Access.{Access};
ghost use Rattle.decoder.specs.Alone.{mobile_view, accessory_view};

use decoder::{AccessoryView, MobileView};

/// What decides for a decoder among its variables.
pub trait View: Copy {
    // The view of these variables, and of the one among them that an access names.
    ghost seen: { List ℕ → Option Access → Self };
}

impl View for MobileView {
    ghost seen = { mobile_view };
}

impl View for AccessoryView {
    ghost seen = { accessory_view };
}
