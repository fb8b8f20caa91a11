// BM25 in f32, each operation rounded once.
ghost use Rattle.std.specs.Prelude.{◌≡◌};
ghost use Rattle.meaning.specs.Below.{list_to};
ghost use Rattle.meaning.specs.Bm25.{length_of, inverse, weight, bm25};
ghost use Rattle.sim.specs.declared.bm25.TheConstants.{INVERSES};

use crate::lengths::length_of;

// One inverse for each norm byte.
pub const INVERSES: usize = 256;

// The inverse of each length code's norm, for a field's average length.
#[derive(Drop)]
pub struct Bm25 {
    pub cache: [f32; INVERSES],
}

impl Bm25 {
    pub const K1: f32 = 1.2;

    pub const B: f32 = 0.75;

    fn norm_inverse(average: f32, len: f32) -> f32
        ensures { result ≡ inverse average len }
    {
        1.0 / (Bm25::K1 * ((1.0 - Bm25::B) + (Bm25::B * len) / average))
    }

    pub fn new(average: f32) -> Bm25
        ensures { result.cache ≡ list_to INVERSES (λ n. inverse average (length_of n)) }
    {
        let mut cache = [0.0; INVERSES];
        for (norm, inverse) in cache.iter_mut().enumerate() {
            *inverse = Bm25::norm_inverse(average, length_of(norm));
        }
        Bm25 { cache }
    }

    pub fn weight(boost: f32, idf: f32) -> f32
        ensures { result ≡ weight boost idf }
    {
        boost * idf
    }

    pub fn score(weight: f32, frequency: f32, inverse: f32) -> f32
        ensures { result ≡ bm25 weight frequency inverse }
    {
        weight - weight / (1.0 + frequency * inverse)
    }
}
