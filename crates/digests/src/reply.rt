//! The lines that answer commands.
ghost use Rattle.std.specs.Prelude.{◌≡◌, IfOk, string_bytes};
ghost use Rattle.digests.specs.Replies.{reply_text};

use refusal::Refusal;
use std::alloc::{AllocError, Global};

/// The refusal, if it is one, then what the space holds after the call.
pub fn reply(
    heap: Global,
    answer: Result<usize, Refusal>,
    space: &[u8],
) -> Result<String, AllocError>
    ensures { IfOk result (λ s. string_bytes s ≡ reply_text answer space.now) }
{
    let bytes = hex::encode(heap, space)?;
    match answer {
        Ok(_) => Ok(bytes),
        Err(e) => format!(in heap;
            "refused {} {} {} {bytes}",
            e.number(),
            e.layer(),
            e.place(),
        ),
    }
}
