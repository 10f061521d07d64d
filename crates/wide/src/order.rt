// Wide numbers in the order of their values. No derive serves: it would compare their words as they lie, the least first, and so
// they lie because the calls for tests (`wide_calls`, rust/bench) have that layout.
ghost use Rattle.std.specs.Prelude.{◌≡◌, nat_eq};
ghost use Rattle.std.specs.Ordering.{nat_cmp, on, as_partial_cmp};
ghost use Rattle.std.specs.Cmp.{partial_order_from_own_ties};
ghost use Rattle.std.specs.Cmp.Rules.{comparing};
ghost use Rattle.std.proofs.Common.{rules};
ghost use Rattle.wide.specs.Value.{value_of};

use crate::Wide;
use std::cmp::Ordering;

impl Wide {
    // The words as they decide: the highest first.
    fn words(self) -> (u64, u64, u64)
        ensures { (result.0 ≡ self.high) × (result.1 ≡ self.mid) × (result.2 ≡ self.low) }
    {
        (self.high, self.mid, self.low)
    }
}

impl PartialEq for Wide {
    ghost eq = { on value_of nat_eq };

    ghost laws = { Prim.search (comparing, rules) };

    fn eq(&self, other: &Wide) -> bool {
        self.words() == other.words()
    }
}

impl Eq for Wide {
    ghost laws = { Prim.search (comparing, rules) };
}

impl PartialOrd for Wide {
    ghost partial_cmp = { as_partial_cmp (on value_of nat_cmp) };

    ghost laws = { partial_order_from_own_ties (Prim.search (comparing, rules)) (Prim.search (comparing, rules)) };

    fn partial_cmp(&self, other: &Wide) -> Option<Ordering> {
        Some(self.cmp(other))
    }
}

impl Ord for Wide {
    ghost cmp = { on value_of nat_cmp };

    ghost total = { Prim.search (comparing, rules) };

    ghost matches_partial_cmp = { Prim.search (comparing, rules) };

    ghost matches_eq = { Prim.search (comparing, rules) };

    fn cmp(&self, other: &Wide) -> Ordering {
        self.words().cmp(&other.words())
    }
}
