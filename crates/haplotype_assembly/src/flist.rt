// What fragment lines are read from: the calls that a line shows, off the rows of its fragment.
ghost use Rattle.std.specs.Prelude.{◌≡◌, ◌<◌, ◌≤◌, length, get_or, map};
ghost use Rattle.std.specs.Iterator.{item_count};
ghost use Rattle.variants_and_fragments.specs.Inner.Case.{All};
ghost use Rattle.pileup.specs.Inner.Packed.{group_start, unpacked, RowIn};
ghost use Rattle.haplotype_assembly.specs.Inner.LinesRead.{shown_at, shown_calls, ShownIn, ShowsFirst, LinesGiven};

use crate::phase::phased_rule;
use pileup::grouped::{Groups, group_start};
use pileup::row::Row;
use std::marker::Model;
use variants_and_fragments::CaseWords;

// A reader of rows, seen as the calls that are left to show: those at variants that meet the phased rule.
#[derive(Drop)]
pub struct ShownCalls<'a> {
    case: CaseWords<'a>,
    rows: &'a [u64],
}

impl<'a> Model for ShownCalls<'a> {
    ghost use Rattle.std.specs.Prelude.{List, map};
    ghost use Rattle.variants_and_fragments.specs.Case.{Call};
    ghost use Rattle.variants_and_fragments.specs.Inner.Case.{All};
    ghost use Rattle.pileup.specs.Inner.Packed.{unpacked, RowIn};
    ghost use Rattle.haplotype_assembly.specs.Inner.LinesRead.{shown_calls};

    ghost Value = { List Call };

    ghost view = { λ shown. shown_calls shown.case.laid.words.now (map unpacked shown.rows.now) };

    ghost invariant = { λ shown. All (RowIn shown.case.laid.sizes.n shown.case.laid.sizes.f) (map unpacked shown.rows.now) };
}

impl<'a> ShownCalls<'a> {
    // Those of some rows of the case.
    pub fn new(case: CaseWords<'a>, rows: &'a [u64]) -> ShownCalls<'a>
        requires { All (RowIn case.laid.sizes.n case.laid.sizes.f) (map unpacked rows.now) }
        ensures { result ≡ shown_calls case.entry.laid.words.now (map unpacked rows.now) }
    {
        ShownCalls { case, rows }
    }
}

impl<'a> Iterator for ShownCalls<'a> {
    type Item = Row;

    ghost next_gives = { ShowsFirst };

    ghost remaining = { item_count (λ calls. calls) };

    // A `while let`: when a call is answered, `rows` has to be what is left, since the view is made of it.
    fn next(&mut self) -> Option<Row> {
        while let Some((word, rest)) = self.rows.split_first() {
            self.rows = rest;
            let row = Row::unpack(*word);
            if phased_rule(&self.case, row.variant) {
                return Some(row);
            }
        }
        None
    }
}

// What the lines of a case are made from: its rows, fragment after fragment, and whether one shown call makes a line.
#[derive(Clone, Copy)]
pub struct Flist<'a> {
    pub case: CaseWords<'a>,
    pub rows: Groups<'a>,
    pub single: bool,
    pub ghost lines_given: { LinesGiven case.laid.sizes rows.words.now rows.ends.now },
}

impl<'a> Flist<'a> {
    // The words of fragment f's rows: none where they would end before they start, for `ends` may stand in any order.
    pub fn words(&self, f: usize) -> &'a [u64]
        requires { f < self.now.case.laid.sizes.f }
        ensures rows_in { All (RowIn self.now.case.laid.sizes.n self.now.case.laid.sizes.f) (map unpacked result.now) }
        ensures calls { shown_calls self.now.case.laid.words.now (map unpacked result.now) ≡ shown_at self.now.case.laid.words.now self.now.rows.words.now (group_start self.now.rows.ends.now f) (get_or self.now.rows.ends.now f 0) }
        ensures few { length result.now ≤ 16384 }
    {
        let end = self.rows.ends[f];
        let start = group_start(self.rows.ends, f).min(end);
        &self.rows.words[start..end]
    }

    // The calls that fragment f's line shows.
    pub fn shown(&self, f: usize) -> ShownCalls<'a>
        requires { f < self.now.case.laid.sizes.f }
        ensures calls { result ≡ shown_at self.now.case.laid.words.now self.now.rows.words.now (group_start self.now.rows.ends.now f) (get_or self.now.rows.ends.now f 0) }
        ensures in_case { All ShownIn result }
        ensures few { length result ≤ 16384 }
    {
        ShownCalls::new(self.case, self.words(f))
    }
}
