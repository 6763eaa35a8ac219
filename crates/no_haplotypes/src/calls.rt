// The calls of a variant, and the piles that they are read from.
ghost use Rattle.std.specs.Prelude.{◌≡◌, List, ℕ, ◌<◌, ◌≤◌, max};
ghost use Rattle.variants_and_fragments.specs.Layout.{allele_count_at, depth_at};
ghost use Rattle.variants_and_fragments.specs.Decode.{decode};
ghost use Rattle.no_haplotypes.specs.NoHaplotypes.{depth_after};
ghost use Rattle.no_haplotypes.specs.Inner.Piles.{CallsHeld, Piled};

use pileup::grouped::Groups;
use variants_and_fragments::CaseWords;

// The calls at variant v of a case: the usable ones, each as the word of its row, and how many more are ambiguous.
#[derive(Clone, Copy)]
pub struct Calls<'a> {
    pub case: CaseWords<'a>,
    pub v: usize,
    pub usable: &'a [u64],
    pub ambiguous: usize,
    pub ghost held: { CallsHeld case.laid.words.now case.laid.sizes v usable.now ambiguous },
}

// The larger of variant v's depth in the case and this number of calls, usable and ambiguous.
pub fn depth_after(case: &CaseWords<'_>, calls: usize, v: usize) -> usize
    requires { (v < case.now.laid.sizes.n) × (calls < 2147483648) }
    ensures { (result ≡ max (depth_at case.now.laid.words.now v) calls) × (result < 2147483648) }
{
    case.with_variants().depth(v).max(calls)
}

impl Calls<'_> {
    // The number of the variant's alleles.
    pub fn allele_count(&self) -> usize
        ensures value { result ≡ allele_count_at self.now.case.laid.words.now self.now.v }
        ensures low { 1 ≤ result }
        ensures high { result ≤ 3 }
    {
        self.case.laid.allele_count(self.v)
    }

    // The larger of the variant's depth in the case and the number of its calls, usable and ambiguous.
    pub fn depth_after(&self) -> usize
        ensures { ((b : List ℕ) → result ≡ depth_after (decode self.now.case.laid.words.now b) self.now.v) × (result < 2147483648) }
    {
        depth_after(&self.case, self.usable.len() + self.ambiguous, self.v)
    }
}

// The usable calls of a case by variant, and how many at each are ambiguous.
#[derive(Clone, Copy)]
pub struct Piles<'a> {
    pub case: CaseWords<'a>,
    pub by_variant: Groups<'a>,
    pub ambiguous: &'a [usize],
    pub ghost piled: { Piled case.laid.words.now case.laid.sizes ambiguous.now by_variant.ends.now by_variant.words.now },
}

impl<'a> Piles<'a> {
    // The calls at variant v.
    pub fn calls(&self, v: usize) -> Calls<'a>
        requires { v < self.now.case.laid.sizes.n }
        ensures { (result.case ≡ self.now.case) × (result.v ≡ v) }
    {
        Calls {
            case: self.case,
            v,
            usable: self.by_variant.group(v),
            ambiguous: self.ambiguous[v],
        }
    }
}
