// The counts, updated call by call of a read that arrives or departs: ten for each variant, one slice as the caller lends it.
ghost use Rattle.std.specs.Prelude.{◌≡◌, ◌<◌, List, map};
ghost use Rattle.std.specs.Iterator.{IsFinite, YieldsFirst};
ghost use Rattle.variants_and_fragments.specs.Layout.{cutoff_at};
ghost use Rattle.pileup.specs.Inner.Packed.{call_read};
ghost use Rattle.late_reads.specs.Inner.Counting.{places, add_at, count_call, fits_at, call_fits, read_of, CountedIs, CountsIn, Countable, CountsLent, Rising, counts_after, counts_fit};

use crate::ranges::count_ok;
use pileup::reader::{Call, ChainReader};
use pileup::row::usable;
use variants_and_fragments::CaseWords;
use variants_and_fragments::layout::direction_of;

// The calls of a read, one after the other; `left` are those to come.
pub trait Calls: Iterator<Item = Call> + Drop {
    ghost use Rattle.std.specs.Prelude.{List, Option};
    ghost use Rattle.pileup.specs.declared.reader.Call.{Call as CallHeld};

    ghost left: { Self → List CallHeld };

    ghost gives_first: { (s : Self) (r : Option CallHeld) (t : Self) → Self.next_gives s r t → YieldsFirst left s r t };

    ghost goes_on: { (s : Self) → Self.can_next s × IsFinite (Self.remaining s) };
}

impl Calls for ChainReader<'_> {
    ghost left = { λ s. s };

    ghost gives_first = { λ s r t h. h };

    ghost goes_on = { λ s. (tt, tt) };
}

// A call as the counts see it, with its read's strand, a number: the place of a count is reckoned from it, so an enum would be turned back there.
#[derive(Clone, Copy)]
pub struct CountedCall {
    pub variant: usize,
    pub allele: usize,
    pub strand: usize,
    pub usable: bool,
}

// A call of a read at this strand, as the counts see it.
fn counted(cutoff: i32, strand: usize, call: Call) -> CountedCall
    ensures { CountedIs cutoff strand call result }
{
    CountedCall {
        variant: call.variant,
        allele: call.allele,
        strand,
        usable: usable(cutoff, strand, call.qual),
    }
}

// Where a call counts, of the ten counts of its variant: a usable one at its allele and at its allele on its strand, an
// ambiguous one at the last.
fn places(call: CountedCall) -> (usize, Option<usize>)
    requires { (call.variant < 1024) × (call.allele < 3) }
    ensures { result ≡ places call }
{
    let at = 10 * call.variant;
    if call.usable {
        let allele = at + call.allele;
        return (allele, Some(allele + 3 * (1 + direction_of(call.strand))));
    }
    (at + 9, None)
}

// A count with d more is in range. Here and below d is 1 for a read that arrives and −1 for one that departs: the number itself, for it is what is
// added, and a type of the two would be turned into it at each count.
fn fits_at(counts: &[i32], e: usize, d: i32) -> bool
    requires { CountsIn counts.now e d }
    ensures { result ≡ fits_at d e counts.now }
{
    count_ok(counts[e] + d)
}

// What the counts of a call would be with d more are in range.
fn call_fits(counts: &[i32], call: CountedCall, d: i32) -> bool
    requires { Countable counts.now d call }
    ensures { result ≡ call_fits d call counts.now }
{
    let (first, second) = places(call);
    let one = fits_at(counts, first, d);
    match second {
        Some(e) => one & fits_at(counts, e, d),
        None => one,
    }
}

// Adds d to a count.
fn add_at(counts: &mut [i32], e: usize, d: i32)
    requires { CountsIn counts.old e d }
    ensures { counts.new ≡ add_at d e counts.old }
{
    counts[e] += d;
}

// Adds d to the counts of a call.
fn count_call(counts: &mut [i32], call: CountedCall, d: i32)
    requires { Countable counts.old d call }
    ensures { counts.new ≡ count_call d call counts.old }
{
    let (first, second) = places(call);
    add_at(counts, first, d);
    if let Some(e) = second {
        add_at(counts, e, d);
    }
}

// The counts with d more for each of a read's calls would be in range. At the loop's head those of the calls before would be.
pub fn fits<C: Calls>(case: &CaseWords<'_>, strand: usize, calls: C, counts: &[i32], d: i32) -> bool
    requires rises { Rising case.now.laid.sizes.n 0 (map call_read (C.left calls)) }
    requires lent { CountsLent case.now.laid.sizes.n counts.now d }
    ensures { result ≡ counts_fit case.now.laid.sizes.n (counts_after d (cutoff_at case.now.laid.words.now) (read_of strand (C.left calls)) case.now.laid.sizes.n counts.now) }
{
    let cutoff = case.cutoff();
    for call in calls {
        if !call_fits(counts, counted(cutoff, strand, call), d) {
            return false;
        }
    }
    true
}

// Adds d to the counts for each of a read's calls. At the loop's head this is done for the calls before. A loop beside that of `fits`: the one reads and
// stops at a call, the other writes at each, so of one loop over a closure no line would be saved. The same goes for `call_fits` and `count_call`.
pub fn count<C: Calls>(case: &CaseWords<'_>, strand: usize, calls: C, counts: &mut [i32], d: i32)
    requires rises { Rising case.now.laid.sizes.n 0 (map call_read (C.left calls)) }
    requires lent { CountsLent case.now.laid.sizes.n counts.old d }
    ensures { counts.new ≡ counts_after d (cutoff_at case.now.laid.words.now) (read_of strand (C.left calls)) case.now.laid.sizes.n counts.old }
{
    let cutoff = case.cutoff();
    for call in calls {
        count_call(counts, counted(cutoff, strand, call), d);
    }
}
