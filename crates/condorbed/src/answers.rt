// The first line of an answer, and what the program writes where a request cannot be read.
ghost use Rattle.std.specs.Prelude.{[], ◌∷◌};
ghost use Rattle.protocol.specs.Inner.Print.{EndsIn};

use protocol::input::Unreadable;
use protocol::output::Writer;
use variants_and_fragments::Refusal;

// `unreadable LINE TOKEN REASON`.
pub fn unreadable(output: &mut Writer, found: Unreadable) {
    output.text(b"unreadable ");
    output.number(found.line);
    output.byte(b' ');
    output.number(found.token);
    output.byte(b' ');
    output.text(found.reason.text());
    output.byte(b'\n');
}

// What an operation returns where it is done.
pub trait Done: Copy {
    // `done` and its fields, a line.
    fn line(self, output: &mut Writer)
        ensures { EndsIn output.new.waiting.items (10 ∷ []) };
}

// No fields.
impl Done for () {
    fn line(self, output: &mut Writer) {
        output.text(b"done");
        output.byte(b'\n');
    }
}

// The first line: that of what is returned, or `refused NUMBER PLACE`.
pub fn first_line<T: Done>(output: &mut Writer, answer: Result<T, Refusal>)
    ensures { EndsIn output.new.waiting.items (10 ∷ []) }
{
    match answer {
        Ok(done) => done.line(output),
        Err(refusal) => {
            output.text(b"refused ");
            output.number(refusal.number());
            output.byte(b' ');
            output.number(refusal.place());
            output.byte(b'\n');
        }
    }
}
