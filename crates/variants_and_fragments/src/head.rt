// The check of the head: number 1 of document 01's table, as amended by requests 1 and 3.
ghost use Rattle.std.specs.Prelude.{◌≡◌, IfOk};
ghost use Rattle.variants_and_fragments.specs.Inner.Head.{head_outcome};
ghost use Rattle.variants_and_fragments.specs.Inner.Answers.{laid_outcome};

use crate::layout::{
    HEAD_WORDS, MAX_CALLS, MAX_FRAGMENTS, MAX_VARIANTS, cutoff_ok, read_sizes, total_words,
};
use crate::{Laid, Refusal};

// The words as their head lays them out. The place of a fault is a word 0 to 5, 6 for the length, 0 under six words.
pub fn read_head(words: &[i32]) -> Result<Laid<'_>, Refusal>
    ensures outcome { laid_outcome result ≡ head_outcome words.now }
    ensures lent { IfOk result (λ laid. laid.words.now ≡ words.now) }
{
    if words.len() < HEAD_WORDS {
        return Err(Refusal::Head(0));
    }
    let sizes = read_sizes(words);
    if MAX_VARIANTS < sizes.n {
        return Err(Refusal::Head(0));
    }
    if MAX_FRAGMENTS < sizes.f {
        return Err(Refusal::Head(1));
    }
    if MAX_CALLS < sizes.c {
        return Err(Refusal::Head(2));
    }
    if !cutoff_ok(words) {
        return Err(Refusal::Head(3));
    }
    if sizes.c < sizes.used {
        return Err(Refusal::Head(4));
    }
    if sizes.used < sizes.free {
        return Err(Refusal::Head(5));
    }
    if words.len() != total_words(sizes) {
        return Err(Refusal::Head(6));
    }
    Ok(Laid { words, sizes })
}
