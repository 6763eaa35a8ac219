// The check of the chains: numbers 4 and 5 of document 01's table, as amended by requests 1, 3 and 5.
ghost use Rattle.std.specs.Prelude.{◌≡◌, ℕ, ◌↔◌, true, IsTrue, EachIndex, suc, ◌+◌, ◌<◌, ◌≤◌, slice_index_or, false, []};
ghost use Rattle.variants_and_fragments.specs.Refusals.{outcome_of};
ghost use Rattle.variants_and_fragments.specs.Chain.{next_call_at, link_ok, chain_of, reached, next_ok, free_chain, free_ok};
ghost use Rattle.variants_and_fragments.specs.Inner.Answers.{calls_outcome, chains_outcome};
ghost use Rattle.variants_and_fragments.specs.Inner.Chain.{Walked, FragmentChecked, FragmentsChecked, Marked, ReachMarked};

use crate::calls::check_calls;
use crate::layout::MAX_STRAND;
use crate::{Laid, Refusal, WithVariants};

// A flag for each record, and one for none. `Marked` is a clause: with a ghost list each contract would still have to say which list it is.
const FLAGS: usize = 16385;

// Record r's next is right: 0, or a record at a larger variant.
fn link_ok(laid: &Laid<'_>, r: usize) -> bool
    requires { (1 ≤ r) × (r ≤ laid.now.sizes.used) }
    ensures { result ≡ link_ok laid.now.words.now laid.now.sizes r }
{
    let t = laid.next_call(r);
    if t == 0 {
        return true;
    }
    if laid.sizes.used < t {
        return false;
    }
    laid.call_variant(r) < laid.call_variant(t)
}

// The same where record r's next is the record after it: apart for speed, since the word is not read again (`walk_chain`).
fn after_ok(laid: &Laid<'_>, r: usize) -> bool
    requires { (1 ≤ r) × (r ≤ laid.now.sizes.used) × (next_call_at laid.now.words.now laid.now.sizes r ≡ r + 1) }
    ensures { result ≡ link_ok laid.now.words.now laid.now.sizes r }
{
    let after = r + 1;
    if laid.sizes.used < after {
        return false;
    }
    laid.call_variant(r) < laid.call_variant(after)
}

// Fragment f's chain is right; then seen marks its records too. At the loop's head the k records
// before r are right and marked. A chain mostly goes on at the record after: the arm of its own lets the machine guess that and run
// ahead, where `r = next` waits for the word (by a reader of this form the largest case's rows take 62 µs, without the arm 75). Not one walker with mark_chain and walk_free: they test other things of a link, or none.
fn walk_chain(laid: &Laid<'_>, f: usize, seen: &mut [bool]) -> bool
    requires f_lt_f { f < laid.now.sizes.f }
    requires marked { Marked seen.old (reached laid.now.words.now laid.now.sizes f) }
    ensures { Walked (link_ok laid.now.words.now laid.now.sizes) (reached laid.now.words.now laid.now.sizes f) (chain_of laid.now.words.now laid.now.sizes f) seen.new result }
{
    let mut r = laid.first_call(f);
    for k in 0..laid.sizes.c {
        if r == 0 {
            return true;
        }
        let met = seen[r];
        if met {
            return false;
        }
        let after = r + 1;
        let next = laid.next_call(r);
        if next == after {
            if !after_ok(laid, r) {
                return false;
            }
            seen[r] = true;
            r = after;
        } else {
            if !link_ok(laid, r) {
                return false;
            }
            seen[r] = true;
            r = next;
        }
    }
    true
}

// Fragment f is right; then seen marks its records too.
fn fragment_ok(laid: &Laid<'_>, f: usize, seen: &mut [bool]) -> bool
    requires f_lt_f { f < laid.now.sizes.f }
    requires marked { Marked seen.old (reached laid.now.words.now laid.now.sizes f) }
    ensures { FragmentChecked laid.now.words.now laid.now.sizes f seen.new result }
{
    laid.strand(f) <= MAX_STRAND && laid.first_ok(f) && walk_chain(laid, f, seen)
}

// Every fragment is right; then seen marks what they reach. The place of a fault is the first fragment that has one. A loop: the closure of
// `first_fault` changes nothing, and this test marks.
fn check_fragments(laid: &Laid<'_>, seen: &mut [bool]) -> Result<(), Refusal>
    requires { Marked seen.old [] }
    ensures { FragmentsChecked laid.now.words.now laid.now.sizes seen.new (outcome_of result) }
{
    for f in 0..laid.sizes.f {
        if !fragment_ok(laid, f, seen) {
            return Err(Refusal::Chain(f));
        }
    }
    Ok(())
}

// Marks the records that fragment f reaches, whatever faults its chain has. It stops at a record marked before, whose chain is marked.
// At the loop's head the k records before r are marked.
fn mark_chain(laid: &Laid<'_>, f: usize, seen: &mut [bool])
    requires f_lt_f { f < laid.now.sizes.f }
    requires reach_marked { ReachMarked laid.now.words.now laid.now.sizes f seen.old }
    ensures { ReachMarked laid.now.words.now laid.now.sizes (suc f) seen.new }
{
    let mut r = laid.first_call(f);
    for k in 0..laid.sizes.c {
        if r == 0 || seen[r] {
            return;
        }
        seen[r] = true;
        r = laid.next_record(r);
    }
}

// Marks every record that some fragment reaches. At the loop's head those of the fragments before f are marked.
fn mark_reached(laid: &Laid<'_>, seen: &mut [bool])
    requires { Marked seen.old [] }
    ensures { Marked seen.new (reached laid.now.words.now laid.now.sizes laid.now.sizes.f) }
{
    for f in 0..laid.sizes.f {
        mark_chain(laid, f, seen);
    }
}

// Every record that some fragment reaches is right, whatever faults the chains have.
fn check_reached(known: &WithVariants<'_>) -> Result<(), Refusal>
    ensures { outcome_of result ≡ calls_outcome known.now.laid.words.now known.now.laid.sizes }
{
    let mut seen = [false; FLAGS];
    mark_reached(&known.laid, &mut seen);
    check_calls(known, &seen)
}

// The free chain is right; then seen marks its records too. At the loop's head the k records before t are right and marked. One step more than there
// are records: a chain that comes back to one of its own is seen.
fn walk_free(laid: &Laid<'_>, seen: &mut [bool]) -> bool
    requires { Marked seen.old (reached laid.now.words.now laid.now.sizes laid.now.sizes.f) }
    ensures { Walked (next_ok laid.now.words.now laid.now.sizes) (reached laid.now.words.now laid.now.sizes laid.now.sizes.f) (free_chain laid.now.words.now laid.now.sizes) seen.new result }
{
    let mut t = laid.sizes.free;
    for k in 0..=laid.sizes.c {
        if t == 0 {
            return true;
        }
        let met = seen[t];
        if met {
            return false;
        }
        let next = laid.next_call(t);
        if laid.sizes.used < next {
            return false;
        }
        seen[t] = true;
        t = next;
    }
    true
}

// Each flag is set.
fn all_marked(flags: &[bool]) -> bool
    ensures { IsTrue result ↔ EachIndex flags.now (λ i. slice_index_or flags.now i false ≡ true) }
{
    flags.iter().all(|marked| *marked)
}

// The free chain is right, and each used record is in a chain. Before, seen marks what the fragments reach.
fn free_ok(laid: &Laid<'_>, seen: &mut [bool]) -> bool
    requires { Marked seen.old (reached laid.now.words.now laid.now.sizes laid.now.sizes.f) }
    ensures { result ≡ free_ok laid.now.words.now laid.now.sizes }
{
    walk_free(laid, seen) && all_marked(&seen[1..=laid.sizes.used])
}

// Numbers 4 and 5. The fragments' chains are walked first: where all are right, they mark what is reached, and no second walk is needed. The free
// chain is walked last.
pub fn check_chains(known: &WithVariants<'_>) -> Result<(), Refusal>
    ensures { outcome_of result ≡ chains_outcome known.now.laid.words.now known.now.laid.sizes }
{
    let laid = &known.laid;
    let mut seen = [false; FLAGS];
    if let Err(fault) = check_fragments(laid, &mut seen) {
        check_reached(known)?;
        return Err(fault);
    }
    check_calls(known, &seen)?;
    if !free_ok(laid, &mut seen) {
        return Err(Refusal::Chain(laid.sizes.f));
    }
    Ok(())
}
