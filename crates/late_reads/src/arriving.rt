// The calls of an arrival, four words each, their test, and whether there is room for them.
ghost use Rattle.std.specs.Prelude.{◌≡◌, ◌<◌, leb, length, IfOk};
ghost use Rattle.std.specs.Iterator.{YieldsFirst, item_count};
ghost use Rattle.variants_and_fragments.specs.Refusals.{done, each, answered, outcome_of};
ghost use Rattle.pileup.specs.Inner.Reader.{held_call};
ghost use Rattle.late_reads.specs.Arriving.{whole_calls, arriving_at, arriving_call, arriving_ok, arriving_rises, room};
ghost use Rattle.late_reads.specs.Inner.Ready.{Arriving, arriving_tests, arriving_left};

use crate::counts::Calls;
use crate::kept::Ready;
use pileup::reader::Call;
use std::marker::Model;
use variants_and_fragments::layout::{MAX_STRAND, nat_of};
use variants_and_fragments::{CallWords, CaseWords, Refusal, first_fault};

// The words of an arriving call.
const ARRIVING_WORDS: usize = 4;

// A read that arrives: the number of its fragment, its strand, and the words of its calls. The strand is the word that C lends: it is tested once, and
// written as it is.
#[derive(Clone, Copy)]
pub struct Arrival<'a> {
    pub fragment: usize,
    pub strand: i32,
    pub calls: &'a [i32],
}

impl<'a> Arrival<'a> {
    // Its calls, one after the other.
    pub fn iter(&self) -> ArrivingCalls<'a>
        ensures { result ≡ arriving_left self.now.calls.now 0 }
    {
        ArrivingCalls { left: *self }
    }

    // The number of whole calls.
    pub fn count(&self) -> usize
        ensures { result ≡ whole_calls self.now.calls.now }
    {
        self.calls.len() / ARRIVING_WORDS
    }

    // The words of call i.
    pub fn call_words(&self, i: usize) -> CallWords
        requires { i < whole_calls self.now.calls.now }
        ensures { result ≡ arriving_at self.now.calls.now i }
    {
        let at = ARRIVING_WORDS * i;
        CallWords {
            variant: self.calls[at],
            allele: self.calls[at + 1],
            qual: self.calls[at + 2],
            one_minus_qual: self.calls[at + 3],
        }
    }

    // Call i.
    pub fn call(&self, i: usize) -> Call
        requires { i < whole_calls self.now.calls.now }
        ensures { result ≡ held_call (arriving_call self.now.calls.now i) }
    {
        self.call_words(i).into()
    }

    // Call i's variant rises over that of the call before.
    fn rises(&self, i: usize) -> bool
        requires { i < whole_calls self.now.calls.now }
        ensures { result ≡ arriving_rises self.now.calls.now i }
    {
        i == 0 || self.call(i - 1).variant < self.call(i).variant
    }

    // 4: each whole call is in range; the place of a fault is the first that is not.
    fn check_calls(&self, case: &CaseWords<'_>) -> Result<(), Refusal>
        ensures { outcome_of result ≡ each 4 (arriving_ok case.now.laid.words.now case.now.laid.sizes self.now.calls.now) 0 (whole_calls self.now.calls.now) (done tt) }
    {
        let known = case.with_variants();
        match first_fault(0, self.count(), |i| known.call_words_ok(self.call_words(i))) {
            Some(i) => Err(Refusal::Call(i)),
            None => Ok(()),
        }
    }

    // 5: the variants of the whole calls rise; the place of a fault is the first call whose does not.
    fn check_rises(&self) -> Result<(), Refusal>
        ensures { outcome_of result ≡ each 5 (arriving_rises self.now.calls.now) 0 (whole_calls self.now.calls.now) (done tt) }
    {
        match first_fault(0, self.count(), |i| self.rises(i)) {
            Some(i) => Err(Refusal::Chain(i)),
            None => Ok(()),
        }
    }
}

// The calls of an arrival that are left, seen as a list.
#[derive(Drop)]
pub struct ArrivingCalls<'a> {
    left: Arrival<'a>,
}

impl<'a> Model for ArrivingCalls<'a> {
    ghost use Rattle.std.specs.Prelude.{List};
    ghost use Rattle.pileup.specs.declared.reader.Call.{Call};
    ghost use Rattle.late_reads.specs.Inner.Ready.{arriving_left};

    ghost Value = { List Call };

    ghost view = { λ it. arriving_left it.left.calls.now 0 };
}

impl<'a> Iterator for ArrivingCalls<'a> {
    type Item = Call;

    ghost next_gives = { YieldsFirst (λ calls. calls) };

    ghost remaining = { item_count (λ calls. calls) };

    fn next(&mut self) -> Option<Call> {
        let (_, rest) = self.left.calls.split_first_chunk::<ARRIVING_WORDS>()?;
        let call = self.left.call(0);
        self.left.calls = rest;
        Some(call)
    }
}

impl Calls for ArrivingCalls<'_> {
    ghost left = { λ s. s };

    ghost gives_first = { λ s r t h. h };

    ghost goes_on = { λ s. (tt, tt) };
}

// Free and unused records together are at least m. At the loop's head i counts the unused records and the free ones before r. A walk of its own: it counts
// records, where those of chains.rt test links or mark, and `last_record` wants the end.
fn has_room(case: &CaseWords<'_>, m: usize) -> bool
    ensures { result ≡ leb m (length (room case.now.laid.words.now case.now.laid.sizes)) }
{
    let s = case.laid.sizes;
    let mut r = s.free;
    for i in s.c - s.used..m {
        if r == 0 {
            return false;
        }
        r = case.laid.next_call(r);
    }
    true
}

// What refuses an arrival at a case, if anything does: 4 and 5 of its calls and strand, 13, 14.
pub fn arriving_fault(case: &CaseWords<'_>, read: &Arrival<'_>) -> Result<(), Refusal>
    ensures { answered (λ _. case.now.laid.sizes) result ≡ arriving_tests case.now.laid.words.now case.now.laid.sizes read.now.fragment read.now.strand read.now.calls.now }
{
    let m = read.count();
    let f = read.fragment;
    read.check_calls(case)?;
    read.check_rises()?;
    if (read.calls.len() != ARRIVING_WORDS * m) | (MAX_STRAND < nat_of(read.strand)) {
        return Err(Refusal::Chain(m));
    }
    if case.laid.sizes.f <= f || case.laid.is_present(f) {
        return Err(Refusal::Fragment(f));
    }
    if !has_room(case, m) {
        return Err(Refusal::Room(m));
    }
    Ok(())
}

// An arrival that passed its tests.
#[derive(Clone, Copy)]
pub struct TestedArrival<'a> {
    pub ready: Ready<'a>,
    pub read: Arrival<'a>,
    pub ghost arriving: { Arriving ready.case.laid.words.now ready.case.laid.sizes read.fragment read.strand read.calls.now },
}

// The arrival, or what refuses it.
pub fn test_arrival<'a>(ready: &Ready<'a>, read: &Arrival<'a>) -> Result<TestedArrival<'a>, Refusal>
    ensures outcome { answered (λ arrival. arrival.ready.case.laid.sizes) result ≡ arriving_tests ready.now.case.laid.words.now ready.now.case.laid.sizes read.now.fragment read.now.strand read.now.calls.now }
    ensures same { IfOk result (λ arrival. (arrival.ready ≡ ready.now) × (arrival.read ≡ read.now)) }
{
    arriving_fault(&ready.case, read)?;
    Ok(TestedArrival {
        ready: *ready,
        read: *read,
    })
}
