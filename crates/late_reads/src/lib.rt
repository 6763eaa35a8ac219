// Reads that come late (requests 1 and 3): a fragment arrives or departs, its call records are taken or freed, and the likelihoods, the
// counts and the phased total are updated.
#![tactic(auto)]

ghost use Rattle.late_reads.specs.Values.{values};
ghost use Rattle.late_reads.specs.LateReads.{late_input, late_slices, outcome_of, Arrives, Departs};

use crate::arriving::test_arrival;
use crate::counts::{count, fits};
use crate::kept::check_kept;
use crate::ranges::total_ok;
use crate::reads::moved;
use crate::words::{lay_arrival, lay_departure};
pub use arriving::Arrival;
use likelihoods::likelihoods::ReadLikelihoods;
use pileup::reader::ChainReader;
use steps::LogProb;
use variants_and_fragments::Refusal;
use variants_and_fragments::layout::nat_of;

mod arriving;
mod counts;
mod kept;
mod ranges;
mod reads;
mod words;

// A fragment arrives: its calls take free records, then unused ones, and its values are added. The answer is the new phased total. Everything is
// known before the first write.
pub fn arrive(
    words: &mut [i32],
    bases: &[u8],
    phase: &[u8],
    haplotypes: &[u8],
    likelihoods: &mut [i64],
    counts: &mut [i32],
    total: LogProb,
    fragment: u32,
    strand: i32,
    calls: &[i32],
) -> Result<LogProb, Refusal>
    ensures { Arrives (late_input words.old bases.now phase.now haplotypes.now (values likelihoods.old counts.old total.0)) fragment strand calls.now (outcome_of result) (late_slices words.new likelihoods.new counts.new) }
{
    let ready = check_kept(words, bases, phase, haplotypes, likelihoods, counts, total)?;
    let read = Arrival {
        fragment: fragment as usize,
        strand,
        calls,
    };
    let arrival = test_arrival(&ready, &read)?;
    let case = &ready.case;
    let s = case.laid.sizes;
    let own = arrival.likelihoods();
    let sum = moved(total, own.first.mix(own.second), 1);
    let side = nat_of(strand);
    // `&`, here and in `depart`: with `||` the borrow checker refuses the function
    let in_range = total_ok(sum) & fits(case, side, read.iter(), counts, 1);
    if !in_range {
        return Err(Refusal::Short(0));
    }
    own.put(likelihoods, read.fragment);
    count(case, side, read.iter(), counts, 1);
    lay_arrival(words, s, &read);
    Ok(sum)
}

// A fragment departs: its values are taken off, its records are free, and it is absent. The answer is the new phased total. Everything is known
// before the first write.
pub fn depart(
    words: &mut [i32],
    bases: &[u8],
    phase: &[u8],
    haplotypes: &[u8],
    likelihoods: &mut [i64],
    counts: &mut [i32],
    total: LogProb,
    fragment: u32,
) -> Result<LogProb, Refusal>
    ensures { Departs (late_input words.old bases.now phase.now haplotypes.now (values likelihoods.old counts.old total.0)) fragment (outcome_of result) (late_slices words.new likelihoods.new counts.new) }
{
    let ready = check_kept(words, bases, phase, haplotypes, likelihoods, counts, total)?;
    let case = &ready.case;
    let s = case.laid.sizes;
    let f = fragment as usize;
    if s.f <= f || !case.laid.is_present(f) {
        return Err(Refusal::Fragment(f));
    }
    let strand = case.laid.strand(f);
    let own = ReadLikelihoods::at(likelihoods, f);
    let rest = moved(total, own.first.mix(own.second), -1);
    let in_range = total_ok(rest) & fits(case, strand, ChainReader::new(case, f), counts, -1);
    if !in_range {
        return Err(Refusal::Short(0));
    }
    let none = ReadLikelihoods {
        first: LogProb(0),
        second: LogProb(0),
    };
    none.put(likelihoods, f);
    count(case, strand, ChainReader::new(case, f), counts, -1);
    lay_departure(words, s, f);
    Ok(rest)
}
