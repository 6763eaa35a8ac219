// A case of variants and fragments: its check, and the types that every crate over it shares.
#![tactic(auto)]

ghost use Rattle.std.specs.Prelude.{◌≡◌, IfOk};
ghost use Rattle.variants_and_fragments.specs.Check.{outcome_of, check_case_outcome, check_case_and_haplotypes_outcome};

use crate::alleles::check_alleles;
use crate::chains::check_chains;
use crate::head::read_head;
use crate::variants::check_variants;
pub use faults::first_fault;
pub use laid::{Case, CaseWords, Laid, WithAlleles, WithVariants};
pub use refusals::long_enough;

pub mod alleles;
pub mod calls;
mod chains;
mod faults;
mod head;
pub mod laid;
pub mod layout;
mod refusals;
mod variants;

// What the head says: N, F, C, how many records are used, the first free one or 0, and the cutoff.
#[derive(Clone, Copy)]
pub struct Sizes {
    pub n: usize,
    pub f: usize,
    pub c: usize,
    pub used: usize,
    pub free: usize,
    pub cutoff: i32,
}

// The first four words of a call's record. Not one generic struct with pileup's `Call`: two of the four fields differ in type, and no function
// is written over both.
#[derive(Clone, Copy)]
pub struct CallWords {
    pub variant: i32,
    pub allele: i32,
    pub qual: i32,
    pub one_minus_qual: i32,
}

// Why an operation turned its input down, with the place of the fault: document 01's table and the requests', number by number.
#[derive(Clone, Copy, PartialEq, Eq, Debug)]
pub enum Refusal {
    Head(usize),
    Variant(usize),
    Alleles(usize),
    Call(usize),
    Chain(usize),
    Rates(usize),
    Phase(usize),
    Orders(usize),
    Limit(usize),
    Short(usize),
    DensityQual(usize),
    Normalize(usize),
    Fragment(usize),
    Room(usize),
}

// The filters that a variant fails, each with its bit.
#[derive(Clone, Copy, PartialEq, Eq, Debug)]
pub enum VarFilter {
    Pass = 0,
    Density = 1,
    Depth = 2,
    DensityAndDepth = 3,
    StrandBias = 4,
    DensityAndStrandBias = 5,
    DepthAndStrandBias = 6,
    DensityAndDepthAndStrandBias = 7,
}

// The check of a case: numbers 1 to 5 of document 01's table as amended by requests 1, 3 and 5, in order, or the case.
pub fn check_case<'a>(words: &'a [i32], bases: &'a [u8]) -> Result<Case<'a>, Refusal>
    ensures outcome { outcome_of result ≡ check_case_outcome words.now bases.now }
    ensures lent { IfOk result (λ case. (case.laid.words.now ≡ words.now) × (case.bases.now ≡ bases.now)) }
{
    // No haplotypes, and no Option of them: number 2 asks nothing of what lies past the slice's end.
    check_case_and_haplotypes(words, bases, &[])
}

// The same for an operation that takes haplotypes as input, which number 2 looks at too.
pub fn check_case_and_haplotypes<'a>(
    words: &'a [i32],
    bases: &'a [u8],
    haplotypes: &[u8],
) -> Result<Case<'a>, Refusal>
    ensures outcome { outcome_of result ≡ check_case_and_haplotypes_outcome words.now bases.now haplotypes.now }
    ensures lent { IfOk result (λ case. (case.laid.words.now ≡ words.now) × (case.bases.now ≡ bases.now)) }
{
    let laid = read_head(words)?;
    let known = check_variants(&laid, haplotypes)?;
    check_alleles(&known, bases)?;
    check_chains(&known)?;
    Ok(Case { laid, bases })
}
