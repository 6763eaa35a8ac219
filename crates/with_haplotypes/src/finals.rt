// The final answer of each variant, from its normalised posteriors.
ghost use Rattle.std.specs.Prelude.{◌≡◌, ◌≤◌, length};
ghost use Rattle.with_haplotypes.specs.Finals.{final_of};
ghost use Rattle.with_haplotypes.specs.Inner.Finals.{TablesIn, FinalsWritten};

use genotype_probs::posteriors::{Genotype, Table};
use steps::PHREDProb;
use variants_and_fragments::{Laid, VarFilter};

// The called pair, the quality of the variant, that of the pair, and the filter.
#[derive(Clone, Copy)]
pub struct FinalAnswer {
    pub genotype: Genotype,
    pub qual: PHREDProb,
    pub gq: PHREDProb,
    pub filter: VarFilter,
}

// The final answer of the variant with these normalised posteriors.
#[tactic(auto, unfolding(crate::specs::Finals::final_of))]
pub fn final_answer(table: &Table<'_>) -> FinalAnswer
    ensures { result ≡ final_of table.now.post.now table.now.k }
{
    let p = table.max_genotype(true);
    FinalAnswer {
        genotype: table.genotype(p),
        qual: table.qual(),
        gq: table.gq(p),
        filter: VarFilter::Pass,
    }
}

// Writes the qualities of each variant, whose normalised posteriors stand at nine places. At the loop's head those before v are written.
pub fn write_finals(laid: &Laid<'_>, post: &[i64], quals: &mut [f64], gqs: &mut [f64])
    requires tables_in { TablesIn laid.now.words.now post.now laid.now.sizes.n }
    requires n_in_bounds { (laid.now.sizes.n ≤ length quals.old) × (laid.now.sizes.n ≤ length gqs.old) }
    ensures { FinalsWritten laid.now.words.now post.now laid.now.sizes.n quals.old gqs.old quals.new gqs.new }
{
    for v in 0..laid.sizes.n {
        let table = Table {
            post: &post[9 * v..9 * v + 9],
            k: laid.allele_count(v),
        };
        let answer = final_answer(&table);
        quals[v] = answer.qual.0;
        gqs[v] = answer.gq.0;
    }
}
