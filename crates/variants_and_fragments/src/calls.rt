// The check of the call records: number 4 of document 01's table, as amended by requests 1 and 3.
ghost use Rattle.std.specs.Prelude.{◌≡◌, ◌≤◌};
ghost use Rattle.variants_and_fragments.specs.Refusals.{outcome_of};
ghost use Rattle.variants_and_fragments.specs.Layout.{call_ok, call_words_ok};
ghost use Rattle.variants_and_fragments.specs.Chain.{reached};
ghost use Rattle.variants_and_fragments.specs.Inner.Answers.{calls_outcome};
ghost use Rattle.variants_and_fragments.specs.Inner.Chain.{Marked};

use crate::faults::first_fault;
use crate::layout::{is_quality, nat_of};
use crate::{CallWords, Refusal, WithVariants};

impl WithVariants<'_> {
    // A call's words are right: its variant, its allele and both qualities are in range.
    pub fn call_words_ok(&self, call: CallWords) -> bool
        ensures { result ≡ call_words_ok self.now.laid.words.now self.now.laid.sizes call.variant call.allele call.qual call.one_minus_qual }
    {
        let v = nat_of(call.variant);
        if self.laid.sizes.n <= v {
            return false;
        }
        let k = self.laid.allele_count(v);
        let a = nat_of(call.allele);
        let qual = is_quality(call.qual);
        let one_minus_qual = is_quality(call.one_minus_qual);
        (a < k) & (qual & one_minus_qual)
    }

    // Call r's record is right.
    pub fn call_ok(&self, r: usize) -> bool
        requires { (1 ≤ r) × (r ≤ self.now.laid.sizes.c) }
        ensures { result ≡ call_ok self.now.laid.words.now self.now.laid.sizes r }
    {
        self.call_words_ok(self.laid.call_words(r))
    }
}

// Every record that is marked as reached is right; the place of a fault is the first record that has one, counted from 1.
pub fn check_calls(known: &WithVariants<'_>, seen: &[bool]) -> Result<(), Refusal>
    requires { Marked seen.now (reached known.now.laid.words.now known.now.laid.sizes known.now.laid.sizes.f) }
    ensures { outcome_of result ≡ calls_outcome known.now.laid.words.now known.now.laid.sizes }
{
    let end = known.laid.sizes.used + 1;
    match first_fault(1, end, |r| !seen[r] || known.call_ok(r)) {
        Some(r) => Err(Refusal::Call(r)),
        None => Ok(()),
    }
}
