ghost use Rattle.std.specs.Prelude.{ℕ, Option, List, [], ◌∷◌};
ghost use Rattle.policy_rules.specs.Given.{Gives};

/// Where moments come from: the machine's clock, or a list.
pub trait Clock {
    /// The readings given so far, the first one first; `None` of a clock that does not tell.
    ghost told: { Self → Option (List ℕ) };

    /// What the clock shows, in seconds since 1970 UTC: any number, and not always later than the one before. It never
    /// fails and takes no memory.
    fn moment(&mut self) -> u64
        ensures { Gives (told self.old) (result ∷ []) (told self.new) };
}
