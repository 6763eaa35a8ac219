// The check of the allele bytes: number 3 of document 01's table.
ghost use Rattle.std.specs.Prelude.{◌≡◌, ◌<◌, ◌≤◌, ◌↔◌, true, IsTrue, EachIndex, slice_index};
ghost use Rattle.variants_and_fragments.specs.Refusals.{outcome_of};
ghost use Rattle.variants_and_fragments.specs.Alleles.{alleles_length, alleles_start, is_base};
ghost use Rattle.variants_and_fragments.specs.Inner.Answers.{alleles_outcome};

use crate::{Refusal, WithVariants};

impl WithVariants<'_> {
    // How many bytes variant v's alleles have: at most 3 times 64.
    pub fn alleles_length(&self, v: usize) -> usize
        requires { v < self.now.laid.sizes.n }
        ensures { (result ≡ alleles_length self.now.laid.words.now v) × (result ≤ 192) }
    {
        let laid = &self.laid;
        laid.allele_length(v, 0) + laid.allele_length(v, 1) + laid.allele_length(v, 2)
    }

    // How many bytes all alleles have.
    #[tactic(auto, unfolding(crate::specs::Alleles::alleles_start))]
    pub fn all_alleles_length(&self) -> usize
        ensures { result ≡ alleles_start self.now.laid.words.now self.now.laid.sizes.n }
    {
        let mut sum = 0;
        for v in 0..self.laid.sizes.n {
            sum += self.alleles_length(v);
        }
        sum
    }
}

// x is A, C, G or T.
pub fn is_base(x: u8) -> bool
    ensures { result ≡ is_base x }
{
    (x == b'A') | (x == b'C') | (x == b'G') | (x == b'T')
}

// All bytes are bases.
fn are_bases(bases: &[u8]) -> bool
    ensures { IsTrue result ↔ EachIndex bases.now (λ i. is_base (slice_index bases.now i) ≡ true) }
{
    bases.iter().all(|x| is_base(*x))
}

// The bytes are as many as the alleles have, and each is a base; the place of a fault is N for a wrong length, else the first variant
// that has one. At the loop's head `at` is where variant v's bytes start. A loop: the closure of `first_fault` changes nothing, and `at` runs on.
#[tactic(auto, unfolding(crate::specs::Alleles::alleles_start))]
pub fn check_alleles(known: &WithVariants<'_>, bases: &[u8]) -> Result<(), Refusal>
    ensures { outcome_of result ≡ alleles_outcome known.now.laid.words.now bases.now known.now.laid.sizes }
{
    let n = known.laid.sizes.n;
    if bases.len() != known.all_alleles_length() {
        return Err(Refusal::Alleles(n));
    }
    let mut at = 0;
    for v in 0..n {
        let end = at + known.alleles_length(v);
        if !are_bases(&bases[at..end]) {
            return Err(Refusal::Alleles(v));
        }
        at = end;
    }
    Ok(())
}
