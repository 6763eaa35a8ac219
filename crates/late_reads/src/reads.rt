// The likelihoods of an arriving read, and a read's share of the phased total.
ghost use Rattle.std.specs.Prelude.{◌≡◌, ◌+◌, ◌*◌, ◌^◌, ◌<◌, ◌≤◌, pos, nat_abs, ◌+ℤ◌, ◌*ℤ◌, length, get_or};
ghost use Rattle.late_reads.specs.Values.{put_likelihoods, likelihood_on};
ghost use Rattle.pileup.specs.Inner.Packed.{call_read};
ghost use Rattle.late_reads.specs.Arriving.{arriving_read};
ghost use Rattle.late_reads.specs.Inner.Ready.{CallArriving, fixed_at, share_on};

use crate::arriving::TestedArrival;
use haplotype_assembly::phase::is_phased;
use likelihoods::likelihoods::ReadLikelihoods;
use pileup::reader::Call;
use pileup::row::usable;
use steps::LogProb;
use variants_and_fragments::layout::nat_of;

impl TestedArrival<'_> {
    // What one of its calls adds to its likelihood on haplotype h: nothing where it is not usable or its variant not phased. Of a call as it came:
    // likelihoods' `call_share` is of a packed row, which is usable, by a flag that costs no jump.
    fn share(&self, call: Call, h: usize) -> LogProb
        requires { CallArriving self.now.ready.case.laid.sizes (call_read call) × (h < 2) }
        ensures { (result.0 ≡ share_on (fixed_at self.now.ready.case.laid.words.now self.now.ready.phase.now self.now.ready.haplotypes.now) (arriving_read self.now.read.strand self.now.read.calls.now) h (call_read call)) × (nat_abs result.0 ≤ 262144) }
    {
        let case = &self.ready.case;
        let v = call.variant;
        if !usable(case.cutoff(), nat_of(self.read.strand), call.qual) {
            return LogProb(0);
        }
        if !is_phased(case, self.ready.phase, v) {
            return LogProb(0);
        }
        let own = self.ready.haplotypes[2 * v + h];
        if call.allele == own as usize {
            return LogProb(i64::from(call.one_minus_qual));
        }
        LogProb(i64::from(call.qual))
    }

    // Its likelihoods on the two haplotypes. At the loop's head those of the calls before are added.
    pub fn likelihoods(&self) -> ReadLikelihoods
        ensures first_value { (result.first.0 ≡ likelihood_on (fixed_at self.now.ready.case.laid.words.now self.now.ready.phase.now self.now.ready.haplotypes.now) (arriving_read self.now.read.strand self.now.read.calls.now) 0) × (nat_abs result.first.0 ≤ 2 ^ 32) }
        ensures second_value { (result.second.0 ≡ likelihood_on (fixed_at self.now.ready.case.laid.words.now self.now.ready.phase.now self.now.ready.haplotypes.now) (arriving_read self.now.read.strand self.now.read.calls.now) 1) × (nat_abs result.second.0 ≤ 2 ^ 32) }
    {
        let mut first = LogProb(0);
        let mut second = LogProb(0);
        for call in self.read.iter() {
            first.0 += self.share(call, 0).0;
            second.0 += self.share(call, 1).0;
        }
        ReadLikelihoods { first, second }
    }
}

// The phased total with d times a read's share more: d is 1 where the read arrives and −1 where it departs, the number itself as in counts.rt.
pub fn moved(total: LogProb, share: LogProb, d: i64) -> LogProb
    requires { (nat_abs total.0 ≤ 2 ^ 40) × (nat_abs share.0 ≤ 2 ^ 41) × (nat_abs d ≤ 1) }
    ensures { result.0 ≡ total.0 +ℤ (d *ℤ share.0) }
{
    LogProb(total.0 + d * share.0)
}
