//! What a value has to mean, so that a desk can tell its seats of it.

/// A value that means a list of entries which only grows, and a gauge.
pub trait Recorded {
    ghost use Rattle.std.specs.Prelude.{◌≡◌, List, length};
    ghost use Rattle.turn_desk.specs.declared.known.Gauge.{Gauge};

    /// What is added to the list.
    type Entry;

    /// The list of entries, the oldest first.
    ghost entries: { Self → List Self.Entry };

    /// The numbers that go with the list.
    ghost gauge: { Self → Gauge };

    /// How many entries there are.
    fn count(&self) -> u64
        ensures { result ≡ length (entries self.now) };
}
