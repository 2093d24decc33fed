//! The program's output.

use crate::streams::StdSink;

/// Standard output, held where that is wanted and there is memory for it. Else each line is written at once, which takes
/// longer and changes nothing else.
pub fn output(rt: &HostRuntime, is_held: bool) -> StdSink {
    if is_held && let Ok(sink) = StdSink::held(rt.alloc(), rt.stdout()) {
        return sink;
    }
    StdSink::at_once(rt.alloc(), rt.stdout())
}
