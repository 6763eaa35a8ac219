// The run of sweeps. The three slices that are written stay parameters here and below: with them in a struct, each contract would say besides
// that the loans stay the same. That there is a case (`Some`) stays a clause, and is no ghost field of what is read: it speaks of them too.
ghost use Rattle.std.specs.Prelude.{◌≡◌, ◌*◌, ◌≤◌, length};
ghost use Rattle.call_genotypes.specs.Inner.Reads.{reads_of};
ghost use Rattle.call_genotypes.specs.Inner.Scores.{Some, sweep_state};
ghost use Rattle.call_genotypes.specs.Inner.Runs.{order_of, plan_of, RunStart, RanFrom};

use crate::reads::SweepReads;
use crate::visit::sweep;

// How many sweeps were made, the last included, and whether the last one changed nothing.
#[derive(Clone, Copy)]
pub struct RunAnswer {
    pub sweeps: usize,
    pub settled: bool,
}

// Lent orders of n variants each, one after the other, m of them. That the entries are so many is a clause and no ghost field: `run_sweeps` has it of its
// case (`RunStart`).
#[derive(Clone, Copy)]
pub struct Orders<'a> {
    pub entries: &'a [u32],
    pub n: usize,
    pub m: usize,
}

impl<'a> Orders<'a> {
    // The order of sweep s: they go round.
    pub fn of_sweep(&self, s: usize) -> &'a [u32]
        requires { (1 ≤ self.now.m) × (length self.now.entries.now ≡ self.now.m * self.now.n) }
        ensures { result.now ≡ order_of self.now.entries.now self.now.n self.now.m s }
    {
        let a = (s % self.m) * self.n;
        &self.entries[a..a + self.n]
    }
}

// Sweeps by the orders in turn until one changes nothing, at most `limit` of them. At the loop's head s sweeps are made, and each changed something.
pub fn run_sweeps(
    reads: &SweepReads<'_>,
    orders: &Orders<'_>,
    limit: usize,
    hap: &mut [u8],
    lik: &mut [i64],
    post: &mut [i64],
) -> RunAnswer
    requires some { Some (λ C. RunStart C (reads_of reads.now) (sweep_state hap.old lik.old post.old) orders.now.entries.now (plan_of orders.now limit)) }
    ensures { RanFrom (reads_of reads.now) (sweep_state hap.old lik.old post.old) orders.now.entries.now (plan_of orders.now limit) (sweep_state hap.new lik.new post.new) result }
{
    for s in 0..limit {
        if !sweep(reads, orders.of_sweep(s), hap, lik, post) {
            return RunAnswer {
                sweeps: s + 1,
                settled: true,
            };
        }
    }
    RunAnswer {
        sweeps: limit,
        settled: false,
    }
}
