//! What the types say of a record: its keys, digests and public bytes are bytes, and its numbers have 32 bits.
//!
//! These functions change nothing and take no memory. Each walks over the lists that it is given once.
ghost use Rattle.std.specs.Prelude.{◌≡◌, All, true};
ghost use Rattle.sg_forms.specs.Spelling.{IsNumber, IsRow};
ghost use Rattle.sg_record.specs.Formed.{is_formed};
ghost use Rattle.sg_record.specs.Laws.{HasWords};
ghost use Rattle.sg_record.specs.Typed.{AreDigests, AreDrawn, BlockHasKeys, DisputeHasKeys, HasCastKey, HasKey, IsDigest, IsTyped};

use crate::record::{BallotBlock, BlockFate, CastLine, DisputeBlock, Record, RowCommit};
use sg_commit::Digest;
use sg_forms::{CodeLine, RowOpening, know_bytes, know_digest, know_key, know_row};
use sg_plan::{Draw, Items};

/// A value of which its type says something.
trait Known {
    ghost known: { Self → Type 0 };

    /// What its type says of it holds.
    fn know(&self)
        ensures { known self.now };
}

/// What the type of the items says holds of each.
fn know_each<T: Known>(items: &Items<T>)
    ensures { All T.known items.now }
{
    for at in 0..items.len() {
        items.get(at).know();
    }
}

impl<T: Known> Known for Items<T> {
    ghost known = { All T.known };

    fn know(&self) {
        know_each(self);
    }
}

/// The number has 32 bits.
fn know_number(number: u32)
    ensures { IsNumber number }
{}

impl Known for u32 {
    ghost known = { IsNumber };

    fn know(&self) {
        know_number(*self);
    }
}

impl Known for Digest {
    ghost known = { IsDigest };

    fn know(&self) {
        know_digest(self);
    }
}

impl Known for RowCommit {
    ghost known = { AreDigests };

    fn know(&self) {
        know_digest(&self.left);
        know_digest(&self.right);
    }
}

impl Known for RowOpening {
    ghost known = { IsRow };

    fn know(&self) {
        know_row(self);
    }
}

impl Known for CodeLine {
    ghost known = { HasKey };

    fn know(&self) {
        know_key(&self.key);
    }
}

impl Known for CastLine {
    ghost known = { HasCastKey };

    fn know(&self) {
        if let CastLine::Code(code) = self {
            know_key(&code.key);
        }
    }
}

impl Known for BallotBlock {
    ghost known = { BlockHasKeys };

    fn know(&self) {
        match &self.fate {
            BlockFate::Cast(lines) => know_each(lines),
            BlockFate::Audited(_, codes) => know_each(codes),
            BlockFate::Spoiled | BlockFate::Voided => {}
        }
    }
}

impl Known for DisputeBlock {
    ghost known = { DisputeHasKeys };

    fn know(&self) {
        know_each(&self.codes);
    }
}

/// The seals are such.
fn know_seals(seals: &[Digest; 3])
    ensures { All IsDigest seals.now }
{
    let [first, second, third] = seals;
    know_digest(first);
    know_digest(second);
    know_digest(third);
}

/// The public bytes of the draw are bytes.
fn know_draw(draw: &Draw)
    ensures { AreDrawn draw.now }
{
    match draw {
        Draw::Full => {}
        Draw::Public(bytes) => know_bytes(bytes.bytes()),
    }
}

/// The numbers of a record are of their types: what the program ensures of each value of `Record`.
///
/// Nothing is answered and nothing changed; its clause is what the function is for.
pub fn know_types(posted: &Record)
    ensures { IsTyped posted.now }
{
    know_each(&posted.code_commits);
    know_each(&posted.row_commits);
    know_seals(&posted.seals);
    know_each(&posted.ballots);
    know_each(&posted.totals);
    know_draw(&posted.draw);
    know_each(&posted.rows);
    know_each(&posted.disputes);
}

/// Each word of a formed record is of its kind: so the laws of records and their texts hold of each formed value of
/// `Record`.
///
/// Nothing is answered and nothing changed; its clause is what the function is for.
pub fn know_words(posted: &Record)
    requires { is_formed posted.now ≡ true }
    ensures { HasWords posted.now }
{
    know_types(posted);
}
