// A case as types, by how much of it is checked: words that are laid out, their variant records too, these with their alleles, all of the words, and
// the allele bytes with them. layout.rt reads their fields.
ghost use Rattle.std.specs.Prelude.{◌≡◌, length};
ghost use Rattle.variants_and_fragments.specs.Inner.Accepted.{CaseIn, BasesIn};
ghost use Rattle.variants_and_fragments.specs.Alleles.{alleles_start};
ghost use Rattle.variants_and_fragments.specs.Inner.Alleles.{VariantsIn};
ghost use Rattle.variants_and_fragments.specs.Inner.Layout.{Sized};
ghost use Rattle.variants_and_fragments.specs.Layout.{cutoff_at};

use crate::Sizes;

// Words that are as many as their head says.
#[derive(Clone, Copy)]
pub struct Laid<'a> {
    pub words: &'a [i32],
    pub sizes: Sizes,
    pub ghost sized: { Sized words.now sizes },
}

// Words that are laid out and whose variant records are right.
#[derive(Clone, Copy)]
pub struct WithVariants<'a> {
    pub laid: Laid<'a>,
    pub ghost variants_in: { VariantsIn laid.words.now laid.sizes },
}

// Such words with as many allele bytes as they ask, whatever these are.
#[derive(Clone, Copy)]
pub struct WithAlleles<'a> {
    pub known: WithVariants<'a>,
    pub bases: &'a [u8],
    pub ghost long: { length bases.now ≡ alleles_start known.laid.words.now known.laid.sizes.n },
}

// Words that the check accepts, whatever allele bytes come with them.
#[derive(Clone, Copy)]
pub struct CaseWords<'a> {
    pub laid: Laid<'a>,
    pub ghost case_in: { CaseIn laid.words.now laid.sizes },
}

// A case that the check accepted, with its allele bytes.
#[derive(Clone, Copy)]
pub struct Case<'a> {
    pub laid: Laid<'a>,
    pub bases: &'a [u8],
    pub ghost case_in: { CaseIn laid.words.now laid.sizes },
    pub ghost bases_in: { BasesIn laid.words.now laid.sizes bases.now },
}

impl<'a> CaseWords<'a> {
    // The cutoff.
    pub fn cutoff(&self) -> i32
        ensures { result ≡ cutoff_at self.now.laid.words.now }
    {
        self.laid.cutoff()
    }

    // What is known of them once the variant records are checked.
    pub fn with_variants(&self) -> WithVariants<'a>
        ensures { result.laid ≡ self.now.laid }
    {
        WithVariants { laid: self.laid }
    }
}

impl<'a> Case<'a> {
    // Its words alone.
    pub fn accepted_words(&self) -> CaseWords<'a>
        ensures { result.laid ≡ self.now.laid }
    {
        CaseWords { laid: self.laid }
    }

    // What is known of it once its variant records are checked.
    pub fn with_variants(&self) -> WithVariants<'a>
        ensures { result.laid ≡ self.now.laid }
    {
        WithVariants { laid: self.laid }
    }

    // What is known of it once its variant records are checked and its allele bytes are counted.
    pub fn with_alleles(&self) -> WithAlleles<'a>
        ensures { (result.known.laid ≡ self.now.laid) × (result.bases ≡ self.now.bases) }
    {
        WithAlleles {
            known: self.with_variants(),
            bases: self.bases,
        }
    }
}
