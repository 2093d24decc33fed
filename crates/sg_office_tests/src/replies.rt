//! The texts of two replies that no program of the gate is given.
ghost use Rattle.sg_asks.specs.Replies.{HasPlainText, HasReplyCodes};

use sg_acts::Reply;
use sg_asks::reply_text;
use sg_plan::NoMemory;
use std::alloc::Global;

/// The reply has this text.
fn has_text(alloc: Global, reply: &Reply, text: &str) -> Result<bool, NoMemory>
    requires codes { HasReplyCodes 2 reply.now }
    requires kept { HasPlainText reply.now }
{
    Ok(reply_text(alloc, 2, reply)?.bytes() == text.as_bytes())
}

#[test]
fn rare_refusals_are_written(rt: HostRuntime) -> Result<(), NoMemory> {
    let full = "{\"error\":\"full\",\"limit\":10000,\"status\":409}";
    let memory = "{\"error\":\"memory\",\"status\":500}";
    assert!(rt; has_text(rt.alloc(), &Reply::Full, full)?);
    assert!(rt; has_text(rt.alloc(), &Reply::Memory, memory)?);
    Ok(())
}
