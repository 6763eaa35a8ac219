// What the sweeps read, in lent slices.
ghost use Rattle.call_genotypes.specs.Inner.Piles.{PileThere, PileIs};

use pileup::grouped::Groups;

// Each variant's number of alleles, its flag, 1 where it is phased, its nine priors, and its pile. A flag is a byte, since this is what
// `given_phase` writes for C.
#[derive(Clone, Copy)]
pub struct SweepReads<'a> {
    pub ks: &'a [u8],
    pub ph: &'a [u8],
    pub pri: &'a [i64],
    pub piles: Groups<'a>,
}

impl<'a> SweepReads<'a> {
    // The rows of v's pile.
    pub fn pile(&self, v: usize) -> &'a [u64]
        requires { PileThere self.now.piles.ends.now self.now.piles.words.now v }
        ensures { PileIs self.now.piles.ends.now self.now.piles.words.now v result.now }
    {
        self.piles.group(v)
    }
}
