// A variant's pair of alleles, one on each haplotype.
ghost use Rattle.std.specs.Prelude.{◌≡◌, ◌+◌, ◌*◌, ◌<◌, length, set};
ghost use Rattle.likelihoods.specs.Inner.Pairs.{pair_at};

// A variant's alleles on the two haplotypes, as indices. With genotype_probs' Genotype, whose numbers are bytes, in its place there would be a cast at
// eight uses; now there are four, in `at` and `put`.
#[derive(Clone, Copy, PartialEq)]
pub struct Pair {
    pub first: usize,
    pub second: usize,
}

impl Pair {
    // That of variant v, in a slice with two alleles for each variant.
    pub fn at(hap: &[u8], v: usize) -> Pair
        requires { 2 * v + 1 < length hap.now }
        ensures { result ≡ pair_at hap.now v }
    {
        Pair {
            first: hap[2 * v] as usize,
            second: hap[2 * v + 1] as usize,
        }
    }

    // Puts it there.
    pub fn put(self, hap: &mut [u8], v: usize)
        requires { (2 * v + 1 < length hap.old) × (self.first < 256) × (self.second < 256) }
        ensures { hap.new ≡ set (set hap.old (2 * v) self.first) (2 * v + 1) self.second }
    {
        hap[2 * v] = self.first as u8;
        hap[2 * v + 1] = self.second as u8;
    }
}
