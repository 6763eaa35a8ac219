// Standard input through a buffer, token by token.
ghost use Rattle.std.specs.Prelude.{◌≡◌, ℕ, ◌<◌, ◌≤◌, List, length, take, Some, IfSome, IfOk, IfErr};
ghost use Rattle.std.specs.List.{FoldsTo};
ghost use Rattle.std.specs.Iterator.{at_most};
ghost use Rattle.protocol.specs.Text.{int_of};
ghost use Rattle.protocol.specs.Inner.State.{length_of, pushed_on, pushed_all, start};
ghost use Rattle.protocol.specs.Inner.Word.{word_of};
ghost use Rattle.protocol.specs.declared.TheConstants.{BUFFER_BYTES};
ghost use Rattle.protocol.specs.Inner.Input.{after_token, ahead, line_after, line_below, next_token, reason_text, unreadable_at};

use crate::from_token::FromToken;
use crate::number::{Number, is_space, opens_comment};
use crate::word::Word;
use crate::{BUFFER_BYTES, Buffer};
use std::io;
use std::io::{Read, Stdin};

// Why the program cannot read a token: an unknown request, no number of its type, the length of a slice that its array
// does not hold, the end of the input in its place.
#[derive(Clone, Copy)]
pub enum Reason {
    Request,
    Number,
    Length,
    End,
}

impl Reason {
    // The reason's word in the program's answer. A `Writer` is no `fmt::Write`, so a `Display` would have none to write to.
    #[tactic(auto, unfolding(crate::specs::Inner::Input::reason_text))]
    pub fn text(self) -> &'static [u8]
        ensures { result.now ≡ reason_text self }
    {
        match self {
            Reason::Request => b"request",
            Reason::Number => b"number",
            Reason::Length => b"length",
            Reason::End => b"end",
        }
    }
}

// A token that cannot be read: its line, its number in the request, and why.
#[derive(Clone, Copy)]
pub struct Unreadable {
    pub line: u64,
    pub token: u64,
    pub reason: Reason,
}

// Where the reading stands after a token: the token's line and that of the next byte, and its number in the request.
#[derive(Clone, Copy)]
pub struct Place {
    pub line: u64,
    pub below: u64,
    pub token: u64,
}

impl Place {
    // The place after the token of this number and line, which the byte `ended` ended, or the end of the input.
    fn after(token: u64, line: u64, ended: Option<u8>) -> Place
        ensures { result ≡ after_token token line ended }
    {
        let below = match ended {
            Some(b) => line_after(line, b),
            None => line,
        };
        Place { line, below, token }
    }
}

// The line of the byte after the byte b of this line.
fn line_after(line: u64, b: u8) -> u64
    ensures { result ≡ line_after line b }
{
    if b == b'\n' {
        line.wrapping_add(1)
    } else {
        line
    }
}

// The start of a token: its first byte, or none at the end of the input, and its line.
#[derive(Clone, Copy)]
pub struct Start {
    first: Option<u8>,
    line: u64,
}

// Standard input and the buffer of its bytes, of which those from `at` up to `fill` are not yet read; how many bytes
// may still be read; and whether a read failed, which counts as the end of the input. std's `BufReader` allocates,
// and this program has no heap; an `ArrayVec` lends std's `read` no room past its elements.
#[derive(Drop)]
struct Bytes {
    stdin: Stdin,
    bytes: Buffer,
    at: usize,
    fill: usize,
    left: u64,
    outcome: io::Result<()>,
    ghost unread: { at ≤ fill },
    ghost filled: { fill ≤ BUFFER_BYTES },
}

impl Bytes {
    // The start of the input. A proved loop has to end, so at most 2^64 − 1 bytes are read.
    fn new(stdin: Stdin) -> Bytes {
        Bytes {
            stdin,
            bytes: [0; BUFFER_BYTES],
            at: 0,
            fill: 0,
            left: u64::MAX,
            outcome: Ok(()),
        }
    }

    // Reads once into the buffer, whose bytes are all read. None come at the end of the input, or where the read fails.
    fn refill(&mut self)
        ensures { self.new.left ≡ self.old.left }
    {
        self.at = 0;
        self.fill = match self.stdin.read(&mut self.bytes) {
            Ok(count) => count,
            Err(e) => {
                self.outcome = Err(e);
                0
            }
        };
    }
}

impl Iterator for Bytes {
    type Item = u8;

    ghost next_gives = { λ s b t. ahead b t.left ≤ s.left };

    ghost remaining = { λ s. at_most s.left };

    // The next byte of the input.
    fn next(&mut self) -> Option<u8> {
        if self.left == 0 {
            return None;
        }
        if self.at == self.fill {
            self.refill();
        }
        if self.at == self.fill {
            return None;
        }
        let b = self.bytes[self.at];
        self.at += 1;
        self.left -= 1;
        Some(b)
    }
}

// The bytes of the input that are left, and the place of the last token.
#[derive(Drop)]
pub struct Reader {
    input: Bytes,
    place: Place,
}

impl Reader {
    // The start of the input.
    pub fn new(stdin: Stdin) -> Reader {
        Reader {
            input: Bytes::new(stdin),
            place: Place {
                line: 1,
                below: 1,
                token: 0,
            },
        }
    }

    // The error of the last read that failed.
    pub fn finish(self) -> io::Result<()> {
        self.input.outcome
    }

    // The place after the last token.
    pub fn place(&self) -> Place
        ensures { result ≡ self.now.place }
    {
        self.place
    }

    // The last token, which cannot be read.
    pub fn unreadable(&self, reason: Reason) -> Unreadable
        ensures { result ≡ unreadable_at self.now.place reason }
    {
        let place = self.place();
        Unreadable {
            line: place.line,
            token: place.token,
            reason,
        }
    }

    // The start of the next token: white space and comments are passed.
    fn start(&mut self) -> Start {
        let mut line = self.place.below;
        let mut comment = false;
        for b in &mut self.input {
            comment = (b != b'\n') & (comment | opens_comment(b));
            if !(comment | is_space(b)) {
                return Start {
                    first: Some(b),
                    line,
                };
            }
            line = line_after(line, b);
        }
        Start { first: None, line }
    }

    // The next token, which has this number: its bytes, one or more, pushed one by one onto `empty`. None at the end of the input.
    fn token<A: Drop, F: Fn(A, u8) -> A>(&mut self, token: u64, empty: A, push: F) -> Option<A>
        requires { F.IsAlwaysCallable push }
        ensures token { self.new.place.token ≡ token }
        ensures pushed { IfSome result (λ read. (bytes : List ℕ) × (0 < length bytes) × FoldsTo (λ x b y. F.post push x b y) empty bytes read) }
    {
        let Start { first, line } = self.start();
        self.place = Place::after(token, line, None);
        let mut b = first?;
        let mut read = empty;
        // A `for` would push in two places, the first byte before it, and keep the byte that ends the token in a variable more.
        loop {
            read = push(read, b);
            match self.input.next() {
                Some(next) if !is_space(next) => b = next,
                ended => {
                    self.place = Place::after(token, line, ended);
                    return Some(read);
                }
            }
        }
    }

    // A request's word, with which its tokens are counted anew. None at the end of the input.
    pub fn word(&mut self) -> Option<Word>
        ensures token { self.new.place.token ≡ 1 }
        ensures word { IfSome result (λ word. (bytes : List ℕ) × (0 < length bytes) × (word.bytes.items ≡ word_of bytes)) }
    {
        self.token(1, Word::new(), Word::push)
    }

    // The next token as a number: the state after its bytes, one or more.
    pub fn number(&mut self) -> Result<Number, Unreadable>
        ensures state { IfOk result (λ s. (bytes : List ℕ) × (0 < length bytes) × (pushed_all (Some start) bytes ≡ Some s)) }
        ensures token { self.new.place.token ≡ next_token self.old.place.token }
        ensures fails { IfErr result (λ e. e ≡ unreadable_at self.new.place e.reason) }
    {
        let token = self.place.token.wrapping_add(1);
        let push = |number: Option<Number>, b: u8| -> Option<Number>
            ensures { result ≡ pushed_on number b }
        { number?.push(b) };
        match self.token(token, Some(Number::new()), push) {
            Some(Some(number)) => Ok(number),
            Some(None) => Err(self.unreadable(Reason::Number)),
            None => Err(self.unreadable(Reason::End)),
        }
    }

    // The next token as a value of the type: the one that the token's bytes stand for.
    pub fn read<T: FromToken>(&mut self) -> Result<T, Unreadable>
        ensures value { IfOk result (λ x. (bytes : List ℕ) × (T.of_reading (int_of bytes) ≡ Some x)) }
        ensures token { self.new.place.token ≡ next_token self.old.place.token }
        ensures fails { IfErr result (λ e. e ≡ unreadable_at self.new.place e.reason) }
    {
        let number = self.number()?;
        T::from_number(number).ok_or(self.unreadable(Reason::Number))
    }

    // The next token as the length of a slice of at most `most` elements.
    pub fn length(&mut self, most: usize) -> Result<usize, Unreadable>
        ensures length { IfOk result (λ n. n ≤ most) }
        ensures value { IfOk result (λ n. (bytes : List ℕ) × (length_of (int_of bytes) ≡ Some n)) }
        ensures token { self.new.place.token ≡ next_token self.old.place.token }
        ensures fails { IfErr result (λ e. e ≡ unreadable_at self.new.place e.reason) }
    {
        let length = self.read::<usize>()?;
        if length <= most {
            Ok(length)
        } else {
            Err(self.unreadable(Reason::Length))
        }
    }

    // The front of out that has the length of an output slice, the next token.
    pub fn front<'a, T>(&mut self, out: &'a mut [T]) -> Result<&'a mut [T], Unreadable>
        ensures front { IfOk result (λ s. s.now ≡ take (length s.now) out.old) }
        ensures token { self.new.place.token ≡ next_token self.old.place.token }
        ensures fails { IfErr result (λ e. e ≡ unreadable_at self.new.place e.reason) }
    {
        let length = self.length(out.len())?;
        Ok(&mut out[..length])
    }

    // An input slice, read into the front of out, and its length. Out keeps its own, also where a token cannot be read.
    pub fn fill<T: FromToken>(&mut self, out: &mut [T]) -> Result<usize, Unreadable>
        ensures kept { length out.new ≡ length out.old }
        ensures counts { IfOk result (λ n. n ≤ length out.new) }
        ensures value { IfOk result (λ n. (bytes : List ℕ) × (length_of (int_of bytes) ≡ Some n)) }
        ensures fails { IfErr result (λ e. e ≡ unreadable_at self.new.place e.reason) }
    {
        let filled = self.length(out.len())?;
        for x in out[..filled].iter_mut() {
            *x = self.read()?;
        }
        Ok(filled)
    }

    // The same, as the front of out.
    pub fn slice<'a, T: FromToken>(&mut self, out: &'a mut [T]) -> Result<&'a mut [T], Unreadable>
        ensures length { IfOk result (λ s. length s.now ≤ length out.old) }
        ensures fails { IfErr result (λ e. e ≡ unreadable_at self.new.place e.reason) }
    {
        let filled = self.fill(out)?;
        Ok(&mut out[..filled])
    }
}
