// Replies as text.
ghost use Rattle.std.specs.Prelude.{◌≡◌, IfOk, string_bytes};
ghost use Rattle.text.specs.Spelling.{spelled};

use crate::answers::Answer;
use hall::refusals::Refusal;
use std::alloc::{AllocError, Global};

// What is printed of a reply.
pub fn render(heap: Global, reply: Result<Answer, Refusal>) -> Result<String, AllocError>
    ensures { IfOk result (λ s. string_bytes s ≡ spelled reply.entry) }
{
    match reply {
        Ok(answer) => answer.to_string(heap),
        Err(refusal) => format!(in heap; "{refusal}\n"),
    }
}
