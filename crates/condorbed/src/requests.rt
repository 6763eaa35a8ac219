// Which operation a request's word asks for, and the loop over the requests.
//
// One request more: its word in `Operation` and `named`, with a row in specs/Requests.antt; the lengths of its arrays in
// arrays.rt; an arm in `answer`; and a file as orders.rt, whose `answer` reads the parts after the case and lends
// the fronts of the arrays, calls the operation, and prints the first line and one line for each output slice.
ghost use Rattle.std.specs.Prelude.{◌≡◌, ℕ, ◌<◌, List, length, Ok, IfOk, IfSome};
ghost use Rattle.condorbed.specs.Requests.{asked_by};

use crate::{check, filter, flist, late, nohap, orders, phase, priors, run};
use protocol::input::{Reader, Reason, Unreadable};
use protocol::output::Writer;

// The operations that a request can ask for.
#[derive(Clone, Copy)]
pub enum Operation {
    Check,
    Filter,
    Priors,
    Orders,
    Phase,
    Flist,
    Nohap,
    Run,
    Arrive,
    Depart,
}

// A request that is answered: what its parts are read from, what its answer is written to, and its case. Each `answer` takes it apart first: the borrow
// checker covers no call that is lent two fields of one struct.
#[derive(Drop)]
pub struct Request<'a> {
    pub reader: &'a mut Reader,
    pub output: &'a mut Writer,
    pub words: &'a mut [i32],
    pub bases: &'a [u8],
}

// What a word asks for: an operation, or none where there is no word, at the end of the input. No `TryFrom`: that of no bytes would be no operation.
#[tactic(auto, unfolding(crate::specs::Requests::asked_by, crate::specs::Requests::found, crate::specs::Requests::requests, crate::specs::Requests::same_bytes))]
fn named(word: &[u8]) -> Result<Option<Operation>, Reason>
    ensures { result ≡ asked_by word.now }
{
    let Ok(text) = std::str::from_utf8(word) else {
        return Err(Reason::Request);
    };
    match text {
        "" => Ok(None),
        "check" => Ok(Some(Operation::Check)),
        "filter" => Ok(Some(Operation::Filter)),
        "priors" => Ok(Some(Operation::Priors)),
        "orders" => Ok(Some(Operation::Orders)),
        "phase" => Ok(Some(Operation::Phase)),
        "flist" => Ok(Some(Operation::Flist)),
        "nohap" => Ok(Some(Operation::Nohap)),
        "run" => Ok(Some(Operation::Run)),
        "arrive" => Ok(Some(Operation::Arrive)),
        "depart" => Ok(Some(Operation::Depart)),
        _ => Err(Reason::Request),
    }
}

impl Operation {
    // The operation that the next request asks for; none at the end of the input.
    fn next(reader: &mut Reader) -> Result<Option<Operation>, Unreadable>
        ensures { IfOk result (λ next. (token : List ℕ) × (asked_by token ≡ Ok next)) }
    {
        let Some(word) = reader.word() else {
            return Ok(None);
        };
        match named(word.as_slice()) {
            Ok(next) => Ok(next),
            Err(reason) => Err(reader.unreadable(reason)),
        }
    }

    // The answer to a request of the operation. Every request starts with a case, `<words i32>` `<bases u8>`. A closure for each
    // operation would only name its function, as each arm does. Each of these that has arrays is `inline(never)`, for the sake of the
    // stack: inlined, the arrays of all requests would lie in one frame, that of `answer_all`, entered before the first word is read.
    fn answer(
        self,
        reader: &mut Reader,
        output: &mut Writer,
        words: &mut [i32],
        bases: &mut [u8],
    ) -> Result<(), Unreadable> {
        let words = reader.slice(words)?;
        let bases = reader.slice(bases)?;
        let request = Request {
            reader,
            output,
            words,
            bases,
        };
        match self {
            Operation::Check => check::answer(request),
            Operation::Filter => filter::answer(request),
            Operation::Priors => priors::answer(request),
            Operation::Orders => orders::answer(request),
            Operation::Phase => phase::answer(request),
            Operation::Flist => flist::answer(request),
            Operation::Nohap => nohap::answer(request),
            Operation::Run => run::answer(request),
            Operation::Arrive => late::arrive(request),
            Operation::Depart => late::depart(request),
        }
    }
}

// The answer to every request of the input, until a write fails or a token cannot be read. A proved loop has to end: at
// most 2^64 − 1 requests.
pub fn answer_all(
    reader: &mut Reader,
    output: &mut Writer,
    words: &mut [i32],
    bases: &mut [u8],
) -> Result<(), Unreadable> {
    for _ in 0..u64::MAX {
        if !output.is_whole() {
            break;
        }
        let Some(operation) = Operation::next(reader)? else {
            break;
        };
        operation.answer(reader, output, words, bases)?;
        output.flush();
    }
    Ok(())
}
