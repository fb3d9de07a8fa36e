ghost use Rattle.std.specs.Prelude.{ℕ, Option, List, [], ◌∷◌};
ghost use Rattle.policy_rules.specs.Given.{Gives};

/// Where words come from that nobody can guess, or that a list has.
pub trait Picker {
    /// The words given so far, the first one first; `None` of a picker that does not tell.
    ghost told: { Self → Option (List ℕ) };

    /// The next word. It never fails and takes no memory.
    fn word(&mut self) -> u64
        ensures { Gives (told self.old) (result ∷ []) (told self.new) };
}
