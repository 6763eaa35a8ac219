// The lengths of fragment lines: what a fragment's calls add to its line, and how many bytes and lines a case has.
ghost use Rattle.std.specs.Prelude.{◌≡◌, ◌+◌, ◌*◌, ◌≤◌, ◌<◌, length};
ghost use Rattle.haplotype_assembly.specs.Lines.{decimal, has_line};
ghost use Rattle.haplotype_assembly.specs.Inner.LinesRead.{shown_fragment, shown_fragments, tally_step, Tallied, SmallTally, CountedOn, LinesCounted};

use crate::Counted;
use crate::flist::{Flist, ShownCalls};
use crate::numbers::digit_count;

// What shown calls add to a line, so far: calls, blocks, allele bytes, and the variant that goes on with the block. That they are at most what 16384
// calls add is no field: `with_call` takes such a tally and may answer one past it.
#[derive(Clone, Copy)]
pub struct Tally {
    pub calls: usize,
    pub blocks: usize,
    pub bytes: usize,
    pub next: usize,
}

impl Tally {
    // The same with a call at v.
    #[tactic(auto, using(crate::proofs::Decimals::decimal_top))]
    pub fn with_call(self, v: usize) -> Tally
        requires { (v < 1024) × SmallTally self 16384 }
        ensures { result ≡ tally_step self v }
    {
        let calls = self.calls + 1;
        let next = v + 1;
        if v == self.next {
            let bytes = self.bytes + 1;
            return Tally {
                calls,
                bytes,
                next,
                ..self
            };
        }
        let digits = digit_count(v + 1);
        Tally {
            calls,
            blocks: self.blocks + 1,
            bytes: self.bytes + (digits + 3),
            next,
        }
    }

    // How many bytes the line with this tally and id has.
    #[tactic(auto, using(crate::proofs::Decimals::decimal_top))]
    pub fn line_bytes(self, id: usize) -> usize
        requires { SmallTally self 16384 × (id ≤ 4096) }
        ensures { result ≡ length (decimal self.blocks) + length (decimal id) + (self.bytes + self.calls + 5) }
    {
        digit_count(self.blocks) + digit_count(id) + (self.bytes + self.calls + 5)
    }
}

// What the calls add to their line, of n variants. At its start no variant goes on with a block: `next` is n then, a number and no Option, for a call
// is at no variant n, so the one `==` against a call's variant tells both cases.
pub fn tally_rows(shown: ShownCalls<'_>, n: usize) -> Tally
    requires { length shown ≤ 16384 }
    ensures { Tallied n shown.entry result × SmallTally result 16384 }
{
    let mut tally = Tally {
        calls: 0,
        blocks: 0,
        bytes: 0,
        next: n,
    };
    for row in shown {
        tally = tally.with_call(row.variant);
    }
    tally
}

// A fragment with this many shown calls has a line.
#[tactic(auto, unfolding(crate::specs::Lines::has_line))]
pub fn has_line(single: bool, calls: usize) -> bool
    ensures { result ≡ has_line single calls }
{
    if single { 1 <= calls } else { 2 <= calls }
}

impl Flist<'_> {
    // What fragment f's calls add to its line.
    pub fn tally(&self, f: usize) -> Tally
        requires { f < self.now.case.laid.sizes.f }
        ensures { Tallied self.now.case.laid.sizes.n (shown_fragment self.now.case.laid.words.now self.now.case.laid.sizes self.now.rows.words.now self.now.rows.ends.now f).calls result × SmallTally result 16384 }
    {
        tally_rows(self.shown(f), self.case.laid.sizes.n)
    }

    // A fragment of these with this many shown calls has a line.
    pub fn has_line(&self, calls: usize) -> bool
        ensures { result ≡ has_line self.now.single calls }
    {
        has_line(self.single, calls)
    }

    // What is counted, with fragment f's line, where it has one.
    pub fn count_fragment(&self, f: usize, counted: Counted) -> Counted
        requires { (f < self.now.case.laid.sizes.f) × ((counted.lines ≤ f) × (counted.bytes ≤ 33554432 * f)) }
        ensures { CountedOn self.now.case.laid.sizes.n self.now.single (shown_fragment self.now.case.laid.words.now self.now.case.laid.sizes self.now.rows.words.now self.now.rows.ends.now f) counted result }
    {
        let tally = self.tally(f);
        if !self.has_line(tally.calls) {
            return counted;
        }
        let bytes = tally.line_bytes(counted.lines);
        Counted {
            bytes: counted.bytes + bytes,
            lines: counted.lines + 1,
        }
    }

    // How many bytes and lines there are.
    pub fn count(&self) -> Counted
        ensures { LinesCounted self.now.case.laid.sizes.n self.now.single (shown_fragments self.now.case.laid.words.now self.now.case.laid.sizes self.now.rows.words.now self.now.rows.ends.now) result }
    {
        let mut counted = Counted { bytes: 0, lines: 0 };
        for f in 0..self.case.laid.sizes.f {
            counted = self.count_fragment(f, counted);
        }
        counted
    }
}
