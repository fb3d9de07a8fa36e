ghost use Rattle.std.specs.Prelude.{◌≡◌, None};
ghost use Rattle.rand_core.specs.Pcg32Seed.{pcg32_seed};
ghost use Rattle.rand_pcg.specs.Pcg.{pcg64, pcg64_of_seed};

use crate::picker::Picker;
use rand_core::SeedableRng;
use rand_core::utils::NextWord;
use rand_pcg::Pcg64;
use std::marker::Model;

/// A picker that gives the words of a generator (O'Neill, PCG XSL RR 128/64), each of which is fixed by the seed. It is
/// good for spreading moments, and for no secret. It keeps no word, and tells none.
#[derive(Debug, Drop)]
pub struct PcgPicker {
    generator: Pcg64,
}

impl Model for PcgPicker {
    ghost use Rattle.rand_pcg.specs.Lcg.{Lcg};

    ghost Value = { Lcg };

    ghost view = { λ p. p.generator };
}

impl PcgPicker {
    /// The generator of a seed.
    pub fn new(seed: u64) -> PcgPicker
        ensures { result ≡ pcg64_of_seed (pcg32_seed 32 seed) }
    {
        PcgPicker {
            generator: Pcg64::seed_from_u64(seed),
        }
    }
}

impl Picker for PcgPicker {
    ghost told = { λ p. None };

    fn word(&mut self) -> u64
        ensures word { result ≡ (pcg64 self.old).0 }
        ensures next { self.new ≡ (pcg64 self.old).1 }
    {
        self.generator.next_word()
    }
}
