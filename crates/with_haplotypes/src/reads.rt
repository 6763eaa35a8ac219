// What a round, its run of sweeps and that run with its rows and piles read.
ghost use Rattle.variants_and_fragments.specs.Decode.{decode};
ghost use Rattle.haplotype_assembly.specs.Phase.{phased_flags};
ghost use Rattle.call_genotypes.specs.Inner.Runs.{plan_of};
ghost use Rattle.with_haplotypes.specs.Round.{round_input};
ghost use Rattle.with_haplotypes.specs.Inner.Steps.{Admitted, ReadsGiven, RunGiven};

use call_genotypes::run::Orders;
use genotype_probs::AcceptedRates;
use pileup::grouped::Groups;
use variants_and_fragments::Case;

// What an accepted round reads: a case, rates, phase bytes, orders, and the most sweeps.
#[derive(Clone, Copy)]
pub struct AcceptedRound<'a> {
    pub case: Case<'a>,
    pub rates: AcceptedRates,
    pub phase: &'a [u8],
    pub orders: Orders<'a>,
    pub limit: usize,
    pub ghost admitted: { Admitted (round_input case.laid.words.now case.bases.now rates.rates phase.now orders.entries.now limit) case.laid.sizes (plan_of orders limit) },
}

// What a run of any flags reads: a case, rates, orders, the most sweeps, each variant's number of alleles, and its flag, 1 where it is phased. Which
// variants the flags say is asked where a run starts.
#[derive(Clone, Copy)]
pub struct FlaggedReads<'a> {
    pub case: Case<'a>,
    pub rates: AcceptedRates,
    pub orders: Orders<'a>,
    pub limit: usize,
    pub ks: &'a [u8],
    pub ph: &'a [u8],
    pub ghost given: { ReadsGiven case.laid.words.now case.bases.now rates.rates case.laid.sizes (plan_of orders limit) ks.now ph.now orders.entries.now },
}

// What an accepted round's run reads: these, whose flags say the variants that the round's phase says. They are borrowed, so that the compiled round
// has no copy.
#[derive(Clone, Copy)]
pub struct RunReads<'a> {
    pub flagged: &'a FlaggedReads<'a>,
    pub phase: &'a [u8],
    pub ghost admitted: { Admitted (round_input flagged.now.case.laid.words.now flagged.now.case.bases.now flagged.now.rates.rates phase.now flagged.now.orders.entries.now flagged.now.limit) flagged.now.case.laid.sizes (plan_of flagged.now.orders flagged.now.limit) },
    pub ghost given: { RunGiven flagged.now.case.laid.words.now flagged.now.case.bases.now flagged.now.rates.rates flagged.now.case.laid.sizes (plan_of flagged.now.orders flagged.now.limit) flagged.now.ks.now flagged.now.ph.now flagged.now.orders.entries.now (phased_flags (decode flagged.now.case.laid.words.now flagged.now.case.bases.now) phase.now) },
}

// A run with its usable calls by fragment and by variant, and the priors, in place of its case and rates. That there is a case that they are of
// is asked by `sweep` alone, and is no ghost field: antt finds no proof that `All`, a type of the logic, is a proposition.
#[derive(Clone, Copy)]
pub struct PreparedRun<'a> {
    pub orders: Orders<'a>,
    pub limit: usize,
    pub ks: &'a [u8],
    pub ph: &'a [u8],
    pub rows: Groups<'a>,
    pub piles: Groups<'a>,
    pub pri: &'a [i64],
}
