// What is called of one variant: its 13 words and its two qualities.
ghost use Rattle.std.specs.Prelude.{◌≡◌, List, ℕ, ◌<◌, pos, map};
ghost use Rattle.variants_and_fragments.specs.Decode.{decode};
ghost use Rattle.no_haplotypes.specs.NoHaplotypes.{depth_after};
ghost use Rattle.no_haplotypes.specs.Inner.Tally.{NinePriors};
ghost use Rattle.no_haplotypes.specs.Inner.Calling.{answer_values, WordsIn, made_from, VariantCalled};

use crate::calls::Calls;
use crate::tally::{Summed, write_posteriors};
use genotype_probs::posteriors::{Genotype, Table};
use steps::PHREDProb;

// The words are genotype, counts, forward and reverse counts, ambiguous count and depth.
#[derive(Clone, Copy)]
pub struct Answer {
    pub words: [i32; 13],
    pub qual: PHREDProb,
    pub gq: PHREDProb,
}

// A number as a word. `as`, since no number that comes here is too large, and a `try_from` would have to say what it is then.
fn word_of(x: usize) -> i32
    requires { x < 2147483648 }
    ensures { result ≡ pos x }
{
    x as i32
}

// The 13 words of a variant, from its genotype, the calls that show each allele, how many are ambiguous, and its depth.
pub fn answer_words(
    g: Genotype,
    counts: &[[usize; 2]; 3],
    ambiguous: usize,
    depth: usize,
) -> [i32; 13]
    requires { WordsIn counts.now ambiguous depth }
    ensures { result ≡ map pos (answer_values g counts.now ambiguous depth) }
{
    let [first, second, third] = *counts;
    let forward = [first[0], second[0], third[0]];
    let reverse = [first[1], second[1], third[1]];
    [
        i32::from(g.0),
        i32::from(g.1),
        word_of(forward[0] + reverse[0]),
        word_of(forward[1] + reverse[1]),
        word_of(forward[2] + reverse[2]),
        word_of(forward[0]),
        word_of(forward[1]),
        word_of(forward[2]),
        word_of(reverse[0]),
        word_of(reverse[1]),
        word_of(reverse[2]),
        word_of(ambiguous),
        word_of(depth),
    ]
}

impl Summed<'_> {
    // The 13 words, where g is the genotype.
    fn words(&self, g: Genotype) -> [i32; 13]
        ensures { (b : List ℕ) → result ≡ map pos (answer_values g self.now.tally.counts self.now.calls.ambiguous (depth_after (decode self.now.calls.case.laid.words.now b) self.now.calls.v)) }
    {
        answer_words(
            g,
            &self.tally.counts,
            self.calls.ambiguous,
            self.calls.depth_after(),
        )
    }
}

impl Calls<'_> {
    // Calls the variant. Its nine places hold its priors, and then its posteriors.
    pub fn answer(&self, post: &mut [i64]) -> Answer
        requires { NinePriors post.old }
        ensures called { VariantCalled self.now.case.laid.words.now self.now.v post.old result }
        ensures posteriors { (b : List ℕ) → post.new ≡ made_from self.now.case.laid.words.now post.old b self.now.v }
    {
        let summed = Summed {
            calls: *self,
            tally: write_posteriors(&self.case, self.v, self.usable, post),
        };
        let k = self.allele_count();
        let table = Table { post, k };
        let p = table.max_genotype(false);
        Answer {
            words: summed.words(table.genotype(p)),
            qual: table.qual(),
            gq: table.gq(p),
        }
    }
}
