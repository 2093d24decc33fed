//! Laws of the tables: what follows from the definitions alone. Each function does nothing, and its contract
//! is proved.
ghost use Rattle.sg_tables.specs.Laws.{CodeLaws, EntryLaws, OpeningLaws, PointerLaws};

/// Left pointers are a permutation of the entries and paths one of the places, and the right pointer of a
/// row is the path of its left pointer, in every instance.
pub fn pointers_law()
    ensures { PointerLaws }
{}

/// The entries of a ballot row show different candidates and lead to places of different candidates.
pub fn entries_law()
    ensures { EntryLaws }
{}

/// The code of an entry is the code beside the candidate that it shows, and the codes of a row are different.
pub fn codes_law()
    ensures { CodeLaws }
{}

/// An opening has the key of its item, and the value that is committed to.
pub fn openings_law()
    ensures { OpeningLaws }
{}
