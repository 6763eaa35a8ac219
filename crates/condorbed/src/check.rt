// `check`: `<words i32>` `<bases u8>`.
use crate::answers::first_line;
use crate::requests::Request;
use protocol::input::Unreadable;

// The answer to the request.
pub fn answer(request: Request<'_>) -> Result<(), Unreadable> {
    let Request {
        output,
        words,
        bases,
        ..
    } = request;
    let answer = variants_and_fragments::check_case(words, bases);
    first_line(output, answer.map(|_| ()));
    Ok(())
}
