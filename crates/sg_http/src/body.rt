//! The body of a request is read.

ghost use Rattle.std.specs.Prelude.{◌≡◌, ◌+◌, ◌<◌, ◌≤◌, ◌==◌, true, false, length, max, take, Option};
ghost use Rattle.sg_links.specs.Board.{Board, Taken};
ghost use Rattle.sg_outside.specs.Faults.{Rose};
ghost use Rattle.sg_http.specs.inside.Reading.{EndsBody};
ghost use Rattle.sg_http.specs.declared.body.Came.TheVariants as Came;

use crate::heads::read_more;
use sg_links::Links;

/// How much of a body came.
#[derive(Clone, Copy, Debug, PartialEq, Eq)]
pub enum Came {
    All,
    /// The connection ended before.
    Part,
    Failed,
}

/// How much of a body came, and how many bytes of the buffer have been read then.
#[derive(Clone, Copy, Debug)]
pub struct Rest {
    pub came: Came,
    pub end: usize,
    pub is_ended: bool,
}

/// Reads on from `end` until `goal` bytes are there.
pub fn read_rest<L: Links>(links: &mut L, buf: &mut [u8], end: usize, goal: usize) -> Rest
    requires opened { L.is_open links.old ≡ true }
    requires end { end ≤ length buf.old }
    requires goal { goal ≤ length buf.old }
    ensures taken { (first : Option Board) → Taken first (L.board links.old) (take end buf.old) false
        → Taken first (L.board links.new) (take result.end buf.new) result.is_ended }
    ensures front { take end buf.new ≡ take end buf.old }
    ensures order { end ≤ result.end }
    ensures bounds { result.end ≤ length buf.new }
    ensures most { result.end ≤ max end goal }
    ensures ends { EndsBody result.came result.end goal result.is_ended }
    ensures failed { result.came ≡ Came.Failed → Rose (L.faults links.old) (L.faults links.new) }
    ensures later { L.faults links.old ≤ L.faults links.new }
    ensures same { length buf.new ≡ length buf.old }
    ensures opened { L.is_open links.new ≡ true }
{
    let mut at = end;
    while at < goal {
        let Ok(count) = read_more(links, buf, at, goal) else {
            return Rest {
                came: Came::Failed,
                end: at,
                is_ended: false,
            };
        };
        at += count;
        if count == 0 {
            return Rest {
                came: Came::Part,
                end: at,
                is_ended: true,
            };
        }
    }
    Rest {
        came: Came::All,
        end: at,
        is_ended: false,
    }
}
