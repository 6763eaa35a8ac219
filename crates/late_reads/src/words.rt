// The words of a case that an arrival and a departure write. What writes them requires `CaseIn` of the words and sizes: a type that holds both would
// have to hold it between two writes too, where it is not so.
ghost use Rattle.std.specs.Prelude.{◌≡◌, ◌-◌, ◌<◌, ◌≤◌, length, get_or};
ghost use Rattle.variants_and_fragments.specs.Chain.{chain_of};
ghost use Rattle.variants_and_fragments.specs.Layout.{max_calls};
ghost use Rattle.variants_and_fragments.specs.Inner.Accepted.{CaseIn};
ghost use Rattle.variants_and_fragments.specs.Inner.Chain.{first_record_at};
ghost use Rattle.late_reads.specs.Arriving.{whole_calls, taken, calls_laid, arrived_words, freed_words, departed_words};
ghost use Rattle.late_reads.specs.Inner.Ready.{Arriving};
ghost use Rattle.late_reads.specs.Inner.Room.{front_of, rest_of, left_at};

use crate::arriving::Arrival;
use variants_and_fragments::layout::{
    ABSENT, put_call, put_first, put_free, put_next, put_strand, put_used,
};
use variants_and_fragments::{CaseWords, Laid, Sizes};

// The records that are left to take: the first free one, and how many are used. Where none is free it is 0, a number and no Option: it is read off the
// words and written back into them, where 0 is none, so an Option would be made of each word and taken apart at once.
#[derive(Clone, Copy)]
pub struct RoomLeft {
    pub free: usize,
    pub used: usize,
}

impl RoomLeft {
    // All of them.
    fn all(s: Sizes) -> RoomLeft
        ensures { (result.free ≡ s.free) × (result.used ≡ s.used) }
    {
        RoomLeft {
            free: s.free,
            used: s.used,
        }
    }

    // The record that is taken next: the first free one, else the first of the unused tail.
    fn front(self) -> usize
        requires { self.used ≤ max_calls }
        ensures { result ≡ front_of self }
    {
        if self.free == 0 {
            return self.used + 1;
        }
        self.free
    }

    // What is left once it is taken.
    fn rest(self, laid: &Laid<'_>) -> RoomLeft
        requires { (self.used ≤ max_calls) × (self.free ≤ laid.now.sizes.c) }
        ensures { result ≡ rest_of laid.now.words.now laid.now.sizes self }
    {
        if self.free == 0 {
            return RoomLeft {
                free: 0,
                used: self.used + 1,
            };
        }
        RoomLeft {
            free: laid.next_call(self.free),
            used: self.used,
        }
    }
}

// Writes the arriving calls into the records that they take, linked one after the other, and answers what is left. At the loop's head those
// before i are written.
fn lay_calls(words: &mut [i32], s: Sizes, read: &Arrival<'_>) -> RoomLeft
    requires case_in { CaseIn words.old s }
    requires arriving { Arriving words.old s read.now.fragment read.now.strand read.now.calls.now }
    ensures words_after { words.new ≡ calls_laid words.old s read.now.calls.now (taken words.old s (whole_calls read.now.calls.now)) (whole_calls read.now.calls.now) }
    ensures value { result ≡ left_at words.old s (whole_calls read.now.calls.now) }
{
    let m = read.count();
    let mut left = RoomLeft::all(s);
    for i in 0..m {
        let r = left.front();
        left = left.rest(&Laid { words, sizes: s });
        let next = if i + 1 == m { 0 } else { left.front() };
        put_call(words, s, r, read.call_words(i), next);
    }
    left
}

// Writes an arrival: its calls' records, its fragment's first call and strand, how many records are used and the first free one. The first call is the
// word that is written, 0 for none, as in `RoomLeft`.
pub fn lay_arrival(words: &mut [i32], s: Sizes, read: &Arrival<'_>)
    requires case_in { CaseIn words.old s }
    requires arriving { Arriving words.old s read.now.fragment read.now.strand read.now.calls.now }
    ensures { words.new ≡ arrived_words words.old s read.now.fragment read.now.strand read.now.calls.now }
{
    let room = RoomLeft::all(s);
    let first = if read.count() == 0 { 0 } else { room.front() };
    let left = lay_calls(words, s, read);
    put_first(words, s, read.fragment, first as i32);
    put_strand(words, s, read.fragment, read.strand);
    put_used(words, left.used);
    put_free(words, left.free);
}

// The last record of fragment f's chain, which is not empty. At the loop's head last is the chain's k-th record. A walk of its own, like those of
// chains.rt and `has_room`: it tests no link and ends at the last record, where those test or count.
fn last_record(case: &CaseWords<'_>, f: usize) -> usize
    requires { (f < case.now.laid.sizes.f) × (1 ≤ first_record_at case.now.laid.words.now case.now.laid.sizes f) }
    ensures { result ≡ get_or (chain_of case.now.laid.words.now case.now.laid.sizes f) (length (chain_of case.now.laid.words.now case.now.laid.sizes f) - 1) 0 }
{
    let laid = case.laid;
    let mut last = laid.first_call(f);
    for k in 1..laid.sizes.c {
        let next = laid.next_call(last);
        if next == 0 {
            return last;
        }
        last = next;
    }
    last
}

// Puts fragment f's records before the free ones.
fn free_records(words: &mut [i32], s: Sizes, f: usize)
    requires case_in { CaseIn words.old s }
    requires f_lt_f { f < s.f }
    ensures { words.new ≡ freed_words words.old s (chain_of words.old s f) }
{
    let laid = Laid { words, sizes: s };
    let first = laid.first_call(f);
    if first == 0 {
        return;
    }
    let last = last_record(&CaseWords { laid }, f);
    put_next(words, s, last, s.free);
    put_free(words, first);
}

// Writes a departure: the fragment's records are free, and it is absent.
pub fn lay_departure(words: &mut [i32], s: Sizes, f: usize)
    requires case_in { CaseIn words.old s }
    requires f_lt_f { f < s.f }
    ensures { words.new ≡ departed_words words.old s f }
{
    free_records(words, s, f);
    put_first(words, s, f, ABSENT);
}
