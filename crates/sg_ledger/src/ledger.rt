//! The ledger: what its tables tell, what a line is judged by them, and how a line is kept in them.
ghost use Rattle.std.specs.Prelude.{◌≡◌, ◌+◌, ◌<◌, ◌≤◌, ◌==◌, ◌&&◌, ◌||◌, if◌then◌else◌, None, true, List, ◌∷◌, [], ◌++◌, IfOk, length, take};
ghost use Rattle.sg_check.specs.Kinds.{bad_placed, first_bad};
ghost use Rattle.sg_check.specs.Verdict.{total_on};
ghost use Rattle.sg_forms.specs.Spelling.{AreDigits};
ghost use Rattle.sg_ledger.specs.inside.Blank.{ledger_with};
ghost use Rattle.sg_ledger.specs.inside.Sizes.{AreSizes};
ghost use Rattle.sg_grammar.specs.Left.{most_totals};
ghost use Rattle.sg_plan.specs.Ballots.{candidates_of, entry_at, entry_place, r_rows, row_place};
ghost use Rattle.sg_plan.specs.declared.plan.Plan.{Plan as PlanOf};
ghost use Rattle.sg_grammar.specs.Placed.{Placed};
ghost use Rattle.sg_grammar.specs.Placed.Placed.{CodeCommitAt, RowCommitAt, CodeAt, OverAt, PaperAt, FlagsAt, PlacesAt, TotalAt, DrawnFull, DrawnPublic, RowAt, Disputed};
ghost use Rattle.sg_grammar.specs.Coordinates.{IsPlacedIn, placed};

use crate::audits::{Audits, are_both, count_both, has_repeat, is_number_wrong, is_paper_wrong};
use crate::bits::{Bits, is_flag_wrong};
use crate::blank::{Blank, CANDIDATES, INSTANCES};
use crate::book::Book;
use crate::claims::{Claimed, is_dispute, is_right, with_shown};
use crate::codes::Codes;
use crate::commitments::{Commitments, left_opening, right_opening};
use crate::drawn::Drawn;
use crate::paths::{is_path_bad, keep_path};
use crate::pointers::{Pointers, is_pointer_bad, keep_pointer};
use crate::tables::{look, put_first, put_firsts, set_bits};
use crate::totals::Totals;
use sg_check::{Kind, Total};
use sg_commit::Digest;
use sg_forms::{CodeLine, RowOpening};
use sg_grammar::{Block, PlacedLine};
use sg_plan::limits::MOST_CANDIDATES;
use sg_plan::{BallotIndex, ClaimWord, Items, NoMemory};
use std::alloc::Global;

/// What the lines of a record have said so far.
#[derive(Drop)]
pub struct Ledger {
    /// The plan of the record.
    book: Book,
    commitments: Commitments,
    codes: Codes,
    bits: Bits,
    pointers: Pointers,
    /// The place to which a row leads each entry, in any instance.
    paths: Items<Option<u32>>,
    audits: Audits,
    drawn: Drawn,
    /// The last claim.
    claim: Option<Claimed>,
    totals: Totals,
}

impl Ledger {
    ghost use Rattle.sg_ledger.specs.inside.Steps.{IsOther, ledger_after};
    ghost use Rattle.sg_check.specs.Judging.{AreOfPlan};
    ghost use Rattle.sg_ledger.specs.Tells.{HasDigits, IsSized, Tells, TellsSome, plan_kept, totals_kept, totals_placed};

    /// Tables for the plan that is indexed, in which nothing is told yet. Only this takes memory, as much as the plan
    /// alone says.
    pub fn make(alloc: Global, index: BallotIndex) -> Result<Ledger, NoMemory>
        ensures { IfOk result (λ ledger. (lines : List Placed) → AreOfPlan lines → Tells index ledger lines) }
    {
        let _ = index.plan();
        match Blank::make(alloc, &index) {
            Ok(blank) => Ok(opened(index, blank)),
            Err(NoMemory) => Err(dropped(index)),
        }
    }

    /// What the line in its place is bad in, against the lines told: all kinds but form and seal.
    #[inline(always)]
    pub fn judge(&self, line: &PlacedLine) -> Option<Kind>
        requires placed { IsPlacedIn (plan_kept self.now) (placed line.now) }
        requires digits { HasDigits (placed line.now) }
        requires some { TellsSome (plan_kept self.now) self.now }
        ensures { (lines : List Placed) → Tells (plan_kept self.now) self.now lines → result ≡ first_bad (plan_kept self.now) lines (placed line.now) }
    {
        match *line {
            PlacedLine::CodeCommit { .. } => None,
            PlacedLine::RowCommit { .. } => None,
            PlacedLine::Seal { .. } => None,
            PlacedLine::Begun { .. } => None,
            PlacedLine::Code {
                block,
                ballot,
                race,
                column,
                code,
            } => self.judge_code(block, ballot, race, column, &code),
            PlacedLine::Over { ballot, race } => self.judge_over(ballot, race),
            PlacedLine::Paper {
                ballot,
                race,
                codes,
                count,
            } => self.judge_paper(ballot, race, &codes, count),
            PlacedLine::Flags { .. } => None,
            PlacedLine::Places { .. } => None,
            PlacedLine::Total {
                race,
                candidate,
                count,
            } => self.judge_total(race, candidate, count),
            PlacedLine::DrawFull => None,
            PlacedLine::DrawPublic { .. } => None,
            PlacedLine::Row {
                race,
                instance,
                row,
                opening,
            } => self.judge_row(race, instance, row, &opening),
            PlacedLine::Dispute { .. } => None,
        }
    }

    /// Tells one more line, in which nothing is bad. It takes no memory.
    #[inline(always)]
    pub fn keep(&mut self, line: &PlacedLine)
        requires placed { IsPlacedIn (plan_kept self.old) (placed line.now) }
        requires digits { HasDigits (placed line.now) }
        requires some { TellsSome (plan_kept self.old) self.old }
        requires room { totals_kept self.old + length (total_on (placed line.now)) ≤ most_totals }
        ensures { (lines : List Placed) → Tells (plan_kept self.old) self.old lines → first_bad (plan_kept self.old) lines (placed line.now) ≡ None → Tells (plan_kept self.old) self.new (lines ++ placed line.now ∷ []) }
    {
        let _ = self.book.plan();
        self.write(line);
    }

    /// The totals told, in the order of their lines.
    pub fn totals(self) -> Items<Total>
        ensures { (plan : PlanOf) (lines : List Placed) → Tells plan self lines → result ≡ totals_placed lines }
    {
        self.totals.into_items()
    }

    /// What a code in a block is bad in.
    fn judge_code(
        &self,
        block: Block,
        ballot: u32,
        race: u32,
        column: u32,
        code: &CodeLine,
    ) -> Option<Kind>
        requires placed { IsPlacedIn self.now.book (CodeAt block ballot race column code.now) }
        requires sized { IsSized self.now.book self.now }
        ensures { (lines : List Placed) → Tells self.now.book self.now lines → result ≡ first_bad self.now.book lines (CodeAt block ballot race column code.now) }
    {
        let _ = self.book.plan();
        let first = self.book.first_entry(race, ballot);
        let at = self.book.entry_place(race, first);
        let own = at + column as usize;
        let opening = self
            .commitments
            .is_code_bad(own, race, first + column, code);
        let many = self.codes.has_enough(block, at, self.book.votes(race));
        let candidates = self.book.candidates(race);
        let against = self
            .codes
            .are_against(at, candidates, column as usize, code.code);
        let dispute = self.is_answer_wrong(block, at, ballot, race, column, code);
        kind_of_code(opening, many, against, dispute)
    }

    /// The code is the last of a dispute's block, and the answer to the claim is wrong.
    fn is_answer_wrong(
        &self,
        block: Block,
        at: usize,
        ballot: u32,
        race: u32,
        column: u32,
        code: &CodeLine,
    ) -> bool
        requires placed { IsPlacedIn self.now.book (CodeAt block ballot race column code.now) }
        requires sized { IsSized self.now.book self.now }
        requires at { at ≡ entry_place self.now.book race (entry_at self.now.book race ballot 0) }
        ensures { (lines : List Placed) → Tells self.now.book self.now lines → result ≡ bad_placed Kind.Dispute self.now.book lines (CodeAt block ballot race column code.now) }
    {
        let _ = self.book.plan();
        if !is_dispute(block) {
            return false;
        }
        let candidates = self.book.candidates(race);
        if column as usize + 1 != candidates {
            return false;
        }
        let Some(claim) = self.claim else {
            return false;
        };
        let marked = self.codes.is_posted(at, candidates, claim.code);
        let shown = is_either(claim.shown, code.code == claim.code);
        !is_right(claim.answer, marked, shown)
    }

    /// What the line that a race is over is bad in.
    fn judge_over(&self, ballot: u32, race: u32) -> Option<Kind>
        requires placed { IsPlacedIn self.now.book (OverAt ballot race) }
        requires sized { IsSized self.now.book self.now }
        ensures { (lines : List Placed) → Tells self.now.book self.now lines → result ≡ first_bad self.now.book lines (OverAt ballot race) }
    {
        let _ = self.book.plan();
        let first = self.book.first_entry(race, ballot);
        let at = self.book.entry_place(race, first);
        kind_of_rule(self.codes.has_mark(at))
    }

    /// What the codes of a paper are bad in: the first so many of them.
    fn judge_paper(
        &self,
        ballot: u32,
        race: u32,
        codes: &[u16; MOST_CANDIDATES],
        count: u32,
    ) -> Option<Kind>
        requires placed { IsPlacedIn self.now.book (PaperAt ballot race (take count codes.now)) }
        ensures { (lines : List Placed) → Tells self.now.book self.now lines → result ≡ first_bad self.now.book lines (PaperAt ballot race (take count codes.now)) }
    {
        let candidates = self.book.candidates(race);
        kind_of_rule(has_repeat(&codes[..candidates]))
    }

    /// What a total is bad in.
    fn judge_total(&self, race: u32, candidate: u32, count: u32) -> Option<Kind>
        requires placed { IsPlacedIn self.now.book (TotalAt race candidate count) }
        requires sized { IsSized self.now.book self.now }
        ensures { (lines : List Placed) → Tells self.now.book self.now lines → result ≡ first_bad self.now.book lines (TotalAt race candidate count) }
    {
        let _ = self.book.plan();
        let votes = look(
            &self.bits.votes,
            CANDIDATES * race as usize + candidate as usize,
        );
        kind_of_total(votes, count)
    }

    /// What the opening of a row is bad in.
    #[inline(always)]
    fn judge_row(&self, race: u32, instance: u32, row: u32, opening: &RowOpening) -> Option<Kind>
        requires placed { IsPlacedIn self.now.book (RowAt race instance row opening.now) }
        requires sized { IsSized self.now.book self.now }
        ensures { (lines : List Placed) → Tells self.now.book self.now lines → result ≡ first_bad self.now.book lines (RowAt race instance row opening.now) }
    {
        let at = self.book.row_place(race, instance, row);
        let bad_opening = self.is_row_opening_bad(at, race, instance, row, opening);
        let bad_pointer = self.is_row_pointer_bad(race, instance, row, opening);
        let bad_flag = self.is_row_flag_bad(at, race, instance, row, opening);
        let bad_path = is_path_bad(&self.paths, &self.book, race, opening);
        let bad_side = self.drawn.is_side_bad(race, instance, row, opening);
        let bad_print = self.is_row_print_bad(race, instance, row, opening);
        kind_of_row(
            bad_opening,
            bad_side,
            bad_pointer,
            bad_flag,
            bad_path,
            bad_print,
        )
    }

    /// The row disagrees with a print audit.
    #[inline(always)]
    fn is_row_print_bad(&self, race: u32, instance: u32, row: u32, opening: &RowOpening) -> bool
        requires placed { IsPlacedIn self.now.book (RowAt race instance row opening.now) }
        requires sized { IsSized self.now.book self.now }
        ensures { (lines : List Placed) → Tells self.now.book self.now lines → result ≡ bad_placed Kind.Print self.now.book lines (RowAt race instance row opening.now) }
    {
        let _ = self.book.plan();
        let is_both = are_both(opening);
        let audit = is_flag_wrong(
            &self.audits.audited,
            &self.book,
            race,
            is_both,
            left_opening(opening),
        );
        let number = is_number_wrong(
            row + 1 == self.book.entries(race),
            look(
                &self.audits.boths,
                INSTANCES * race as usize + instance as usize,
            ),
            is_both,
            look(&self.audits.entries, race as usize),
        );
        let paper = is_paper_wrong(&self.audits, &self.codes.known, &self.book, race, opening);
        is_print_bad(self.drawn.is_public(), audit, number, paper)
    }

    /// A pointer that the row opens does not open its commitment.
    #[inline(always)]
    fn is_row_opening_bad(
        &self,
        at: usize,
        race: u32,
        instance: u32,
        row: u32,
        opening: &RowOpening,
    ) -> bool
        requires placed { IsPlacedIn self.now.book (RowAt race instance row opening.now) }
        requires sized { IsSized self.now.book self.now }
        requires at { at ≡ row_place self.now.book race instance row }
        requires within { at < r_rows self.now.book }
        ensures { (lines : List Placed) → Tells self.now.book self.now lines → result ≡ bad_placed Kind.Opening self.now.book lines (RowAt race instance row opening.now) }
    {
        let _ = self.book.plan();
        let left = left_opening(opening);
        let right = right_opening(opening);
        self.commitments
            .is_row_bad(at, race, instance, row, left, right)
    }

    /// A pointer that the row opens is n or more, or was opened before.
    #[inline(always)]
    fn is_row_pointer_bad(&self, race: u32, instance: u32, row: u32, opening: &RowOpening) -> bool
        requires placed { IsPlacedIn self.now.book (RowAt race instance row opening.now) }
        requires sized { IsSized self.now.book self.now }
        ensures { (lines : List Placed) → Tells self.now.book self.now lines → result ≡ bad_placed Kind.Pointer self.now.book lines (RowAt race instance row opening.now) }
    {
        let left = is_pointer_bad(
            &self.pointers.lefts,
            &self.book,
            race,
            instance,
            left_opening(opening),
        );
        let right = is_pointer_bad(
            &self.pointers.rights,
            &self.book,
            race,
            instance,
            right_opening(opening),
        );
        is_either(left, right)
    }

    /// The row's flag disagrees with an entry's mark or with a place's bit.
    #[inline(always)]
    fn is_row_flag_bad(
        &self,
        at: usize,
        race: u32,
        instance: u32,
        row: u32,
        opening: &RowOpening,
    ) -> bool
        requires placed { IsPlacedIn self.now.book (RowAt race instance row opening.now) }
        requires sized { IsSized self.now.book self.now }
        requires at { at ≡ row_place self.now.book race instance row }
        requires within { at < r_rows self.now.book }
        ensures { (lines : List Placed) → Tells self.now.book self.now lines → result ≡ bad_placed Kind.Flag self.now.book lines (RowAt race instance row opening.now) }
    {
        let flag = look(&self.bits.flagged, at);
        let left = is_flag_wrong(
            &self.codes.marked,
            &self.book,
            race,
            flag,
            left_opening(opening),
        );
        let right = is_flag_wrong(
            &self.bits.places,
            &self.book,
            race,
            flag,
            right_opening(opening),
        );
        is_either(left, right)
    }

    /// Puts what the line tells into the tables.
    #[inline(always)]
    fn write(&mut self, line: &PlacedLine)
        requires placed { IsPlacedIn self.old.book (placed line.now) }
        requires digits { HasDigits (placed line.now) }
        requires sized { IsSized self.old.book self.old }
        requires room { totals_kept self.old + length (total_on (placed line.now)) ≤ most_totals }
        ensures { self.new ≡ ledger_after self.old.book self.old (placed line.now) }
    {
        match *line {
            PlacedLine::CodeCommit {
                race,
                entry,
                digest,
            } => self.write_code_commit(race, entry, digest),
            PlacedLine::RowCommit {
                race,
                instance,
                row,
                left,
                right,
            } => self.write_row_commit(race, instance, row, left, right),
            PlacedLine::Code {
                block,
                ballot,
                race,
                column,
                code,
            } => self.write_code(block, ballot, race, column, &code),
            PlacedLine::Row {
                race,
                instance,
                row,
                opening,
            } => self.write_row(race, instance, row, &opening),
            _ => self.write_other(line),
        }
    }

    /// The same of a line that is no commitment, code or row.
    fn write_other(&mut self, line: &PlacedLine)
        requires placed { IsPlacedIn self.old.book (placed line.now) }
        requires digits { HasDigits (placed line.now) }
        requires sized { IsSized self.old.book self.old }
        requires room { totals_kept self.old + length (total_on (placed line.now)) ≤ most_totals }
        requires other { IsOther (placed line.now) }
        ensures { self.new ≡ ledger_after self.old.book self.old (placed line.now) }
    {
        match *line {
            PlacedLine::Seal { .. } => (),
            PlacedLine::Begun { .. } => (),
            PlacedLine::Over { .. } => (),
            PlacedLine::Paper {
                ballot,
                race,
                codes,
                count,
            } => self.write_paper(ballot, race, &codes, count),
            PlacedLine::Flags {
                race,
                instance,
                from,
                bits,
            } => self.write_flags(race, instance, from, bits),
            PlacedLine::Places { race, from, bits } => self.write_places(race, from, bits),
            PlacedLine::Total {
                race,
                candidate,
                count,
            } => self.write_total(race, candidate, count),
            PlacedLine::DrawFull => self.write_full(),
            PlacedLine::DrawPublic { digits } => self.write_public(digits),
            PlacedLine::Dispute {
                ballot,
                race,
                code,
                word,
            } => self.write_claim(ballot, race, code, word),
            _ => unreachable!(),
        }
    }

    /// Keeps the commitment of a code.
    #[inline(always)]
    fn write_code_commit(&mut self, race: u32, entry: u32, digest: Digest)
        requires placed { IsPlacedIn self.old.book (CodeCommitAt race entry digest) }
        requires sized { IsSized self.old.book self.old }
        ensures { self.new ≡ ledger_after self.old.book self.old (CodeCommitAt race entry digest) }
    {
        let at = self.book.entry_place(race, entry);
        put_first(&mut self.commitments.codes, at, digest);
    }

    /// Keeps the commitments of a row's pointers.
    #[inline(always)]
    fn write_row_commit(&mut self, race: u32, instance: u32, row: u32, left: Digest, right: Digest)
        requires placed { IsPlacedIn self.old.book (RowCommitAt race instance row left right) }
        requires sized { IsSized self.old.book self.old }
        ensures { self.new ≡ ledger_after self.old.book self.old (RowCommitAt race instance row left right) }
    {
        let at = self.book.row_place(race, instance, row);
        self.commitments.keep_row(at, left, right);
    }

    /// Keeps a code that is shown, and the mark that it may be.
    fn write_code(&mut self, block: Block, ballot: u32, race: u32, column: u32, code: &CodeLine)
        requires placed { IsPlacedIn self.old.book (CodeAt block ballot race column code.now) }
        requires sized { IsSized self.old.book self.old }
        ensures { self.new ≡ ledger_after self.old.book self.old (CodeAt block ballot race column code.now) }
    {
        let _ = self.book.plan();
        let first = self.book.first_entry(race, ballot);
        let at = self.book.entry_place(race, first);
        let own = at + column as usize;
        self.codes.keep(block, at, column as usize, code.code);
        self.audits.keep_code(block, own, race as usize);
        self.claim = with_shown(self.claim, block, code.code);
    }

    /// Keeps the codes of a paper, the first so many of them.
    fn write_paper(&mut self, ballot: u32, race: u32, codes: &[u16; MOST_CANDIDATES], count: u32)
        requires placed { IsPlacedIn self.old.book (PaperAt ballot race (take count codes.now)) }
        requires sized { IsSized self.old.book self.old }
        ensures { self.new ≡ ledger_after self.old.book self.old (PaperAt ballot race (take count codes.now)) }
    {
        let _ = self.book.plan();
        let first = self.book.first_entry(race, ballot);
        let at = self.book.entry_place(race, first);
        let candidates = self.book.candidates(race);
        put_firsts(&mut self.audits.papers, at, &codes[..candidates]);
    }

    /// Keeps flags.
    fn write_flags(&mut self, race: u32, instance: u32, from: u32, bits: &[u8])
        requires placed { IsPlacedIn self.old.book (FlagsAt race instance from bits.now) }
        requires sized { IsSized self.old.book self.old }
        ensures { self.new ≡ ledger_after self.old.book self.old (FlagsAt race instance from bits.now) }
    {
        let _ = self.book.plan();
        let at = self.book.row_place(race, instance, from);
        set_bits(&mut self.bits.flagged, at, bits);
    }

    /// Keeps bits of places, and counts their votes.
    fn write_places(&mut self, race: u32, from: u32, bits: &[u8])
        requires placed { IsPlacedIn self.old.book (PlacesAt race from bits.now) }
        requires sized { IsSized self.old.book self.old }
        ensures { self.new ≡ ledger_after self.old.book self.old (PlacesAt race from bits.now) }
    {
        let _ = self.book.plan();
        let at = self.book.entry_place(race, from);
        let first = CANDIDATES * race as usize;
        let candidates = self.book.candidates(race);
        self.bits
            .keep_places(at, first, candidates, from as usize, bits);
    }

    /// Keeps a total.
    fn write_total(&mut self, race: u32, candidate: u32, count: u32)
        requires { totals_kept self.old < most_totals }
        ensures { self.new ≡ ledger_after self.old.book self.old (TotalAt race candidate count) }
    {
        self.totals.push(Total {
            race,
            candidate,
            count,
        });
    }

    /// Keeps that both sides of each row are drawn.
    fn write_full(&mut self)
        ensures { self.new ≡ ledger_after self.old.book self.old DrawnFull }
    {
        self.drawn.full = true;
    }

    /// Keeps the coins of public bytes, in hexadecimal digits.
    fn write_public(&mut self, digits: &[u8])
        requires { AreDigits digits.now }
        ensures { self.new ≡ ledger_after self.old.book self.old (DrawnPublic digits.now) }
    {
        self.drawn.keep_public(digits);
    }

    /// Keeps a claim, of which nothing is shown yet.
    fn write_claim(&mut self, ballot: u32, race: u32, code: u16, word: ClaimWord)
        ensures { self.new ≡ ledger_after self.old.book self.old (Disputed ballot race code word) }
    {
        self.claim = Some(Claimed {
            code,
            answer: word,
            shown: false,
        });
    }

    /// Keeps the pointers that a row opens, and the path of its entry.
    #[inline(always)]
    fn write_row(&mut self, race: u32, instance: u32, row: u32, opening: &RowOpening)
        requires placed { IsPlacedIn self.old.book (RowAt race instance row opening.now) }
        requires sized { IsSized self.old.book self.old }
        ensures { self.new ≡ ledger_after self.old.book self.old (RowAt race instance row opening.now) }
    {
        let _ = self.book.plan();
        let left = left_opening(opening);
        let right = right_opening(opening);
        keep_pointer(&mut self.pointers.lefts, &self.book, race, instance, left);
        keep_pointer(&mut self.pointers.rights, &self.book, race, instance, right);
        keep_path(&mut self.paths, &self.book, race, opening);
        let place = INSTANCES * race as usize + instance as usize;
        count_both(&mut self.audits.boths, place, opening);
        self.drawn.move_on(race, instance, row);
    }
}

/// The ledger with these tables.
fn opened(index: BallotIndex, blank: Blank) -> Ledger
    requires { AreSizes index blank.sizes }
    ensures { result ≡ ledger_with index blank }
{
    let drawn = Drawn::make();
    Ledger {
        book: Book::open(index, blank.sizes),
        commitments: blank.commitments,
        codes: blank.codes,
        bits: blank.bits,
        pointers: blank.pointers,
        paths: blank.paths,
        audits: blank.audits,
        drawn,
        claim: None,
        totals: blank.totals,
    }
}

/// Lets the index go, for want of memory.
fn dropped(index: BallotIndex) -> NoMemory {
    drop(index);
    NoMemory
}

/// One of two sides is bad.
fn is_either(left: bool, right: bool) -> bool
    ensures { result ≡ (left || right) }
{
    left || right
}

/// The first kind in which a code is bad: it does not open its commitment, or there are too many marks, or a code is
/// against it, or the answer to a claim is wrong.
fn kind_of_code(opening: bool, many: bool, against: bool, dispute: bool) -> Option<Kind>
    ensures { result ≡ (if opening then Some Kind.Opening else (if many || against then Some Kind.Rule else (if dispute then Some Kind.Dispute else None))) }
{
    if opening {
        Some(Kind::Opening)
    } else if many || against {
        Some(Kind::Rule)
    } else if dispute {
        Some(Kind::Dispute)
    } else {
        None
    }
}

/// A rule is broken.
fn kind_of_rule(rule: bool) -> Option<Kind>
    ensures { result ≡ (if rule then Some Kind.Rule else None) }
{
    if rule { Some(Kind::Rule) } else { None }
}

/// A row disagrees with a print audit: where public bytes were drawn, in what it opens or in the number of such rows;
/// or in the paper.
fn is_print_bad(public: bool, audit: bool, number: bool, paper: bool) -> bool
    ensures { result ≡ ((public && (audit || number)) || paper) }
{
    (public && (audit || number)) || paper
}

/// The total is not the number of votes counted.
fn kind_of_total(votes: u64, count: u32) -> Option<Kind>
    ensures { result ≡ (if votes == count then None else Some Kind.Total) }
{
    if votes == u64::from(count) {
        None
    } else {
        Some(Kind::Total)
    }
}

/// The first kind in which a row is bad.
fn kind_of_row(
    opening: bool,
    side: bool,
    pointer: bool,
    flag: bool,
    path: bool,
    print: bool,
) -> Option<Kind>
    ensures { result ≡ (if opening then Some Kind.Opening else (if side then Some Kind.Side else (if pointer then Some Kind.Pointer else (if flag then Some Kind.Flag else (if path then Some Kind.Path else (if print then Some Kind.Print else None)))))) }
{
    if opening {
        Some(Kind::Opening)
    } else if side {
        Some(Kind::Side)
    } else if pointer {
        Some(Kind::Pointer)
    } else if flag {
        Some(Kind::Flag)
    } else if path {
        Some(Kind::Path)
    } else if print {
        Some(Kind::Print)
    } else {
        None
    }
}
