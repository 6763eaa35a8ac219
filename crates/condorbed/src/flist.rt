// `flist`: `<words i32>` `<bases u8>` single_reads (0 or 1) `[buffer u8]`.
use crate::answers::{Done, first_line};
use crate::arrays::{Fill, LINES};
use crate::requests::Request;
use haplotype_assembly::Counted;
use protocol::input::Unreadable;
use protocol::output::Writer;

// The answer to the request.
#[inline(never)]
pub fn answer(request: Request<'_>) -> Result<(), Unreadable> {
    let Request {
        reader,
        output,
        words,
        bases,
    } = request;
    let mut buffer = [u8::FILL; LINES];
    let single_reads = reader.read()?;
    let buffer = reader.front(&mut buffer)?;
    let answer = haplotype_assembly::generate_flist_buffer(words, bases, single_reads, buffer);
    first_line(output, answer);
    output.line(buffer);
    Ok(())
}

// The bytes and the lines that were written.
impl Done for Counted {
    fn line(self, output: &mut Writer) {
        output.text(b"done ");
        output.number(self.bytes);
        output.byte(b' ');
        output.number(self.lines);
        output.byte(b'\n');
    }
}
