ghost use Rattle.std.specs.Prelude.{◌≤◌, length};

use crate::kind::Kind;

/// The slots of the decoders of a kind, in their order.
// An iterator of its own: tried as a chain of `enumerate`, `filter` and `map`, over which no proof of a `for` is
// generated.
#[derive(Drop)]
pub(crate) struct SlotsOf<'a> {
    kind: Kind,
    kinds: &'a [Kind],
    /// Where the next one is looked for.
    from: usize,
    ghost within: { from ≤ length kinds.now },
}

impl<'a> SlotsOf<'a> {
    ghost use Rattle.std.specs.Prelude.{◌≡◌, length};
    ghost use Rattle.bank.specs.Kinds.{is_kind};
    ghost use Rattle.bank.specs.Slots.{NextOf};

    /// All slots of the kind.
    pub(crate) fn new(kind: Kind, kinds: &'a [Kind]) -> SlotsOf<'a>
        ensures kind { result.kind ≡ kind }
        ensures kinds { result.kinds.now ≡ kinds.now }
        ensures from { result.from ≡ 0 }
    {
        SlotsOf {
            kind,
            kinds,
            from: 0,
        }
    }

    /// The next one.
    fn ahead(&self) -> Option<usize>
        ensures { NextOf (is_kind self.now.kinds.now self.now.kind) (length self.now.kinds.now) self.now.from result }
    {
        let kind = self.kind;
        let from = self.from;
        let mut others = self.kinds[from..].iter();
        others
            .position(|found| *found == kind)
            .map(|passed| from + passed)
    }
}

impl Iterator for SlotsOf<'_> {
    type Item = usize;

    ghost use Rattle.std.specs.Prelude.{◌-◌, length};
    ghost use Rattle.std.specs.Iterator.{at_most};
    ghost use Rattle.bank.specs.Slots.{Advances};

    ghost next_gives = { Advances };

    ghost remaining = { λ s. at_most (length s.kinds.now - s.from) };

    fn next(&mut self) -> Option<usize> {
        let slot = self.ahead()?;
        self.from = slot + 1;
        Some(slot)
    }
}
