ghost use Rattle.std.specs.Prelude.{◌≡◌, Bool, true};
ghost use Rattle.rules.specs.Settings.{Permission, IsAsWide};

/// What a house sets for one entry, and what it then says yes to there.
pub trait Setting: Copy {
    /// It stands, and says yes wherever any other that stands does.
    const WIDEST: Self;

    ghost WIDEST: { Self };

    // Whether a rule may have the setting.
    ghost stands: { Self → Bool };

    // Its yes or no to a new value, from the last value of the entry's chain.
    ghost permits: { Self → Permission };

    fn stands(self) -> bool
        ensures { result ≡ stands self };

    fn permits(self, last: i64, new: i64) -> bool
        ensures { result ≡ permits self last new };

    ghost widest_stands: { stands WIDEST ≡ true };

    ghost widest_permits: { (s : Self) → stands s ≡ true → IsAsWide (permits s) (permits WIDEST) };
}
