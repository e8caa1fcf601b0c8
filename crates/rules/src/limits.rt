ghost use Rattle.std.specs.Prelude.{refl};
ghost use Rattle.std.proofs.Common.{rules};
ghost use Rattle.rules.specs.Limits.{widest, limits_stand, limits_permit};

use crate::setting::Setting;

// The farthest that a limit may lie from 0 on either side, in femtoseconds.
const FARTHEST: i64 = store::version::FARTHEST as i64;

/// The smallest and the largest value that an entry may take, both included, in femtoseconds.
#[derive(Clone, Copy, PartialEq, Eq, Debug)]
pub struct Limits {
    pub smallest: i64,
    pub largest: i64,
}

impl Setting for Limits {
    const WIDEST: Limits = Limits {
        smallest: -FARTHEST,
        largest: FARTHEST,
    };

    ghost WIDEST = { widest };

    ghost stands = { limits_stand };

    ghost permits = { limits_permit };

    fn stands(self) -> bool {
        -FARTHEST <= self.smallest && self.smallest <= self.largest && self.largest <= FARTHEST
    }

    // Whatever the last value was.
    fn permits(self, _last: i64, new: i64) -> bool {
        (self.smallest..=self.largest).contains(&new)
    }

    ghost widest_stands = { refl };

    ghost widest_permits = { Prim.search rules };
}
