ghost use Rattle.std.specs.Prelude.{◌≡◌, ◌+◌, ◌≤◌};
ghost use Rattle.packet.specs.Groups.{lowest_of, width_of};

use crate::instruction::FunctionGroup;

// Of F0 to F4 these tell F1 to F4: bit 4 switches FL, which is F0.
impl FunctionGroup {
    /// The function that bit 0 switches; each further bit switches the next.
    pub fn lowest(self) -> usize
        ensures { result ≡ lowest_of self }
    {
        match self {
            FunctionGroup::F0ToF4 => 1,
            FunctionGroup::F5ToF8 => 5,
            FunctionGroup::F9ToF12 => 9,
            FunctionGroup::F13ToF20 => 13,
            FunctionGroup::F21ToF28 => 21,
            FunctionGroup::F29ToF36 => 29,
            FunctionGroup::F37ToF44 => 37,
            FunctionGroup::F45ToF52 => 45,
            FunctionGroup::F53ToF60 => 53,
            FunctionGroup::F61ToF68 => 61,
        }
    }

    /// How many functions these are.
    pub fn width(self) -> usize
        ensures is { result ≡ width_of self }
        ensures some { 1 ≤ result }
        ensures last { lowest_of self + result ≤ 69 }
    {
        match self {
            FunctionGroup::F0ToF4 | FunctionGroup::F5ToF8 | FunctionGroup::F9ToF12 => 4,
            _ => 8,
        }
    }
}
