// What the sweeps use of a case's words.
ghost use Rattle.std.specs.Prelude.{◌≡◌, ◌≤◌, length};
ghost use Rattle.variants_and_fragments.specs.Layout.{allele_count_at};
ghost use Rattle.variants_and_fragments.specs.Written.{written};

use variants_and_fragments::WithVariants;

// Writes each variant's number of alleles. At the loop's head those of the first v are written.
#[tactic(auto, unfolding(variants_and_fragments::specs::Written::written))]
pub fn write_allele_counts(case: &WithVariants<'_>, ks: &mut [u8])
    requires { case.now.laid.sizes.n ≤ length ks.old }
    ensures { ks.new ≡ written (allele_count_at case.now.laid.words.now) case.now.laid.sizes.n ks.old }
{
    for v in 0..case.laid.sizes.n {
        ks[v] = case.laid.allele_count(v) as u8;
    }
}
