ghost use Rattle.std.specs.Prelude.{◌≡◌, IfErr};

use crate::command::Command;
use crate::fault::{AtLine, Fault};
use crate::reply::Reply;
use crate::session::Session;
use std::alloc::Global;

// The answer to a line; none to a blank line or a comment.
fn answer(session: &mut Session, alloc: Global, line: &str) -> Result<Option<Reply>, Fault> {
    let Some(command) = Command::parse(alloc, line)? else {
        return Ok(None);
    };
    Ok(Some(session.answer(alloc, command)?))
}

// The answer to the line of this number; none to a blank line or a comment.
pub fn answer_line(
    session: &mut Session,
    alloc: Global,
    number: u64,
    line: &str,
) -> Result<Option<Reply>, AtLine>
    ensures { IfErr result (λ at. at.line ≡ number) }
{
    answer(session, alloc, line).map_err(|fault| AtLine {
        line: number,
        fault,
    })
}
