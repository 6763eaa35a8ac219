// The latest scores become the latest posteriors, once, after the last sweep.
ghost use Rattle.std.specs.Prelude.{◌≡◌, ◌*◌, length};
ghost use Rattle.variants_and_fragments.specs.Written.{written};
ghost use Rattle.with_haplotypes.specs.Inner.NormalizedPosteriors.{normalized_at, TablesAt};

use genotype_probs::posteriors::normalize;

// Normalizes the scores of each variant, in nine places a variant, with zeros past its k × k. At the loop's head those of the first v are
// normalized.
pub fn normalize_all(ks: &[u8], post: &mut [i64])
    requires { TablesAt ks.now post.old (length ks.now) }
    ensures { post.new ≡ written (normalized_at ks.now post.old) (9 * length ks.now) post.old }
{
    for v in 0..ks.len() {
        normalize(&mut post[9 * v..9 * v + 9], ks[v] as usize);
    }
}
