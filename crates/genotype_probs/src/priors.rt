// The priors of a variant's genotypes, looked up in the table.
ghost use Rattle.std.specs.Prelude.{◌≡◌, ◌*◌, ◌<◌, ◌≤◌, length};
ghost use Rattle.variants_and_fragments.specs.Layout.{sizes_of, allele_count_at};
ghost use Rattle.variants_and_fragments.specs.Alleles.{alleles_start};
ghost use Rattle.variants_and_fragments.specs.Decode.{allele_start, allele_at, tabulate, variant_from, decode};
ghost use Rattle.variants_and_fragments.specs.Written.{written};
ghost use Rattle.genotype_probs.specs.Inner.PriorTable.{lookup, table_priors, table_prior_at};

use crate::letters::{Allele, Base, compare};
use crate::table::PriorTable;
use steps::LogProb;
use variants_and_fragments::WithAlleles;

// Variant v of words with their alleles, whose own alleles' bytes start at `at`.
#[derive(Clone, Copy)]
pub struct VariantAlleles<'a> {
    pub alleles: &'a WithAlleles<'a>,
    pub v: usize,
    pub at: usize,
    pub ghost inside: { v < alleles.now.known.laid.sizes.n },
    pub ghost starts: { at ≡ alleles_start alleles.now.known.laid.words.now v },
}

impl<'a> VariantAlleles<'a> {
    // The number of its alleles.
    pub fn count(&self) -> usize
        ensures { (result ≡ allele_count_at self.now.alleles.now.known.laid.words.now self.now.v) × (result ≤ 3) }
    {
        self.alleles.known.laid.allele_count(self.v)
    }

    // Where the bytes of allele j start.
    fn start(&self, j: usize) -> usize
        requires { j < 3 }
        ensures { result ≡ allele_start self.now.alleles.now.known.laid.words.now self.now.v j }
    {
        let mut start = self.at;
        for i in 0..j {
            start += self.alleles.known.laid.allele_length(self.v, i);
        }
        start
    }

    // The bases of allele j.
    pub fn allele(&self, j: usize) -> Allele<'a>
        requires { j < allele_count_at self.now.alleles.now.known.laid.words.now self.now.v }
        ensures { result.bases.now ≡ allele_at self.now.alleles.now.known.laid.words.now self.now.alleles.now.bases.now self.now.v j }
    {
        let start = self.start(j);
        let end = start + self.alleles.known.laid.allele_length(self.v, j);
        Allele {
            bases: &self.alleles.bases[start..end],
        }
    }
}

// The prior of two alleles beside the reference. The second comparison starts from the reference base that the first one left.
pub fn get_prior(
    table: &PriorTable,
    reference: Allele<'_>,
    first: Allele<'_>,
    second: Allele<'_>,
) -> LogProb
    ensures { result.0 ≡ lookup table.now.bases reference.entry.bases.now first.entry.bases.now second.entry.bases.now }
{
    let base = Base::of(reference.bases[0]);
    let one = compare(reference.bases, first, base);
    let two = compare(reference.bases, second, one.base);
    table.value(two.base, one.letter, two.letter)
}

// Writes a variant's nine places: its k by k genotypes row after row, then zeros.
pub fn get_all_priors(table: &PriorTable, variant: &VariantAlleles<'_>, priors: &mut [i64])
    requires { length priors.old ≡ 9 }
    ensures { priors.new ≡ tabulate 9 (table_priors table.now.bases (variant_from variant.now.alleles.now.known.laid.words.now variant.now.alleles.now.bases.now variant.now.v)) }
{
    let k = variant.count();
    let reference = variant.allele(0);
    for i in 0..k {
        let first = variant.allele(i);
        for j in 0..k {
            priors[i * k + j] = get_prior(table, reference, first, variant.allele(j)).0;
        }
    }
    priors[k * k..9].fill(0);
}

// Writes the priors of all variants.
pub fn write_priors(alleles: &WithAlleles<'_>, table: &PriorTable, priors: &mut [i64])
    requires { (alleles.now.known.laid.sizes ≡ sizes_of alleles.now.known.laid.words.now) × (9 * alleles.now.known.laid.sizes.n ≤ length priors.old) }
    ensures { priors.new ≡ written (table_prior_at table.now.bases (decode alleles.now.known.laid.words.now alleles.now.bases.now)) (9 * alleles.now.known.laid.sizes.n) priors.old }
{
    let mut at = 0;
    for v in 0..alleles.known.laid.sizes.n {
        let variant = VariantAlleles {
            alleles: &*alleles,
            v,
            at,
        };
        get_all_priors(table, &variant, &mut priors[9 * v..9 * v + 9]);
        at += alleles.known.alleles_length(v);
    }
}
