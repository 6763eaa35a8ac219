// Reading a chain, one call at a time: a case's fragment's by `ChainReader`, and from any record of words that are only laid out by `RecordReader`.
ghost use Rattle.std.specs.Prelude.{◌≡◌, ◌<◌, ◌≤◌, map};
ghost use Rattle.std.specs.Iterator.{YieldsFirst, item_count};
ghost use Rattle.variants_and_fragments.specs.Decode.{call_from, fragment_from};
ghost use Rattle.variants_and_fragments.specs.Inner.Layout.{Sized};
ghost use Rattle.pileup.specs.Inner.Reader.{held_call, worded_call, read_at, step_at, reader_at, moved_on};

use std::marker::Model;
use variants_and_fragments::layout::nat_of;
use variants_and_fragments::{CallWords, CaseWords, Laid, Sizes};

// A call of a fragment.
#[derive(Clone, Copy)]
pub struct Call {
    pub variant: usize,
    pub allele: usize,
    pub qual: i32,
    pub one_minus_qual: i32,
}

// The call that its words say.
impl From<CallWords> for Call {
    ghost from_gives = { λ words call. call ≡ worded_call words };

    fn from(words: CallWords) -> Call {
        Call {
            variant: nat_of(words.variant),
            allele: nat_of(words.allele),
            qual: words.qual,
            one_minus_qual: words.one_minus_qual,
        }
    }
}

// A reader of a chain, seen as the calls that are left: the words, and the number of the next record, where 0 ends the chain. `guess` is the record
// after the last one read, which is mostly the next.
#[derive(Drop)]
pub struct ChainReader<'a> {
    laid: Laid<'a>,
    guess: usize,
    next: usize,
}

impl<'a> Model for ChainReader<'a> {
    ghost use Rattle.std.specs.Prelude.{◌≤◌, List};
    ghost use Rattle.pileup.specs.declared.reader.Call.{Call};
    ghost use Rattle.pileup.specs.Inner.Reader.{calls_left, Readable};

    ghost Value = { List Call };

    ghost view = { λ reader. calls_left reader.laid.words.now reader.laid.sizes reader.next };

    ghost invariant = { λ reader. Readable reader.laid.words.now reader.laid.sizes reader.next × (1 ≤ reader.guess) };
}

impl<'a> ChainReader<'a> {
    // The reader of fragment f's calls.
    pub fn new(case: &CaseWords<'a>, f: usize) -> ChainReader<'a>
        requires { f < case.now.laid.sizes.f }
        ensures { result ≡ map held_call (fragment_from case.now.laid.words.now case.now.laid.sizes f).calls }
    {
        ChainReader {
            laid: case.laid,
            guess: 1,
            next: case.laid.first_call(f),
        }
    }
}

impl<'a> Iterator for ChainReader<'a> {
    type Item = Call;

    ghost next_gives = { YieldsFirst (λ calls. calls) };

    ghost remaining = { item_count (λ calls. calls) };

    // The arm of its own for a right guess lets the machine run ahead, where `r = self.next` waits for the word (the largest case's rows take 62 µs, without
    // the arm 75); it is kept while `guess` stands before
    // `next`, above and here (docs/DECISIONS.md, "A chain mostly goes on at the next record").
    fn next(&mut self) -> Option<Call> {
        let mut r = self.guess;
        if self.next != r {
            let ended = self.next == 0;
            if ended {
                return None;
            }
            r = self.next;
        }
        self.guess = r + 1;
        self.next = self.laid.next_call(r);
        Some(call_at(&self.laid, r))
    }
}

// The call of record r.
pub fn call_at(laid: &Laid<'_>, r: usize) -> Call
    requires { (1 ≤ r) × (r ≤ laid.now.sizes.c) }
    ensures { result ≡ held_call (call_from laid.now.words.now laid.now.sizes r) }
{
    laid.call_words(r).into()
}

// A step along a chain: the call that is read, none at the chain's end, and the number of the record after it.
#[derive(Clone, Copy)]
pub struct CallStep {
    pub read: Option<Call>,
    pub next: usize,
}

// The step from record r, where 0 ends a chain. (`ChainReader` tests that apart, for speed.)
pub fn read_call(laid: &Laid<'_>, r: usize) -> CallStep
    requires { r ≤ laid.now.sizes.c }
    ensures { result ≡ step_at laid.now.words.now laid.now.sizes r }
{
    if r == 0 {
        return CallStep {
            read: None,
            next: 0,
        };
    }
    CallStep {
        read: Some(call_at(laid, r)),
        next: laid.next_call(r),
    }
}

// A reader of the records from any one on: the words, and the number of the next record. No iterator, since in words that no check has
// accepted a chain may have no end.
#[derive(Drop)]
pub struct RecordReader<'a> {
    pub words: &'a [i32],
    pub next: usize,
}

impl<'a> RecordReader<'a> {
    // The reader whose next record is `next`.
    pub fn new(words: &'a [i32], next: usize) -> RecordReader<'a>
        ensures { result ≡ reader_at words.entry next }
    {
        RecordReader { words, next }
    }

    // The call of the next record, or none at the end; the reader moves on to the record after it.
    pub fn next(&mut self, s: Sizes) -> Option<Call>
        requires { Sized self.old.words.now s × (self.old.next ≤ s.c) }
        ensures { (result ≡ read_at self.old.words.now s self.old.next) × (self.new ≡ moved_on s self.old) }
    {
        let laid = Laid {
            words: self.words,
            sizes: s,
        };
        let step = read_call(&laid, self.next);
        self.next = step.next;
        step.read
    }
}
