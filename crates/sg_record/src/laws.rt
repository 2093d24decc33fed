//! Laws of records and their texts. These functions do nothing: what they ensure is the law.
ghost use Rattle.sg_record.specs.Laws.{FormedAreWalked, FormedAreWhole, TextsDiffer, TextsHaveLines, TypedHaveWords, WholeAreFormed};

/// The lines of a formed record's text are a whole record.
#[tactic(auto, using(crate::proofs::PlacesLaw::formed_are_whole))]
pub fn formed_law()
    ensures { FormedAreWhole }
{}

/// Lines that are a whole record are those of a formed record's text.
#[tactic(auto, using(crate::proofs::WholeLaw::whole_are_formed))]
pub fn whole_law()
    ensures { WholeAreFormed }
{}

/// Different formed records have different texts.
#[tactic(auto, using(crate::proofs::TextLaw::texts_differ))]
pub fn text_law()
    ensures { TextsDiffer }
{}

/// The walk over the lines of a formed record's text: each line stands in its place, as the record's lists have it, and
/// behind the last one the record is whole.
#[tactic(auto, using(crate::proofs::PlacesLaw::formed_are_walked))]
pub fn walk_law()
    ensures { FormedAreWalked }
{}

/// The lines of a record's text are those of the record.
#[tactic(auto, using(crate::proofs::PlacesLaw::texts_have_lines))]
pub fn lines_law()
    ensures { TextsHaveLines }
{}

/// The words of each formed record are of their kinds, where its numbers are of the program's types.
pub fn words_law()
    ensures { TypedHaveWords }
{}
