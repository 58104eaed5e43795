//! A message once more.

ghost use Rattle.std.specs.Prelude.{◌≡◌, IfOk};

use std::alloc::Global;
use svc_base::{NoMemory, copy_items};
use svc_fds::Message;

/// The same message once more.
pub(crate) fn copy_message(alloc: Global, message: &Message) -> Result<Message, NoMemory>
    ensures { IfOk result (λ copied. copied ≡ message.now) }
{
    Ok(Message {
        bytes: copy_items(alloc, message.bytes.as_slice())?,
        fds: copy_items(alloc, message.fds.as_slice())?,
    })
}
