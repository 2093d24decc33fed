//! Laws of the forms of a line. These functions do nothing: what they ensure is the law.
ghost use Rattle.sg_forms.specs.Laws.{LinesAreSpelled, LinesAreRead, LinesDiffer, LinesAreShort, LongLinesHaveNoForm, OpenLinesHaveNoForm, SplitLinesHaveNoForm, CutLinesHaveNoForm};

/// A line is read from its one spelling, and from nothing else: so different lines have different spellings. No
/// spelling is longer than a line may be.
pub fn spelling_law()
    ensures spelled { LinesAreSpelled }
    ensures read { LinesAreRead }
    ensures differ { LinesDiffer }
    ensures short { LinesAreShort }
{}

/// Bytes have no form that are too many, that no line feed ends, or that have a line feed before their last byte; nor
/// have those at whose front the most bytes of a line stand without a line feed.
pub fn no_form_law()
    ensures long { LongLinesHaveNoForm }
    ensures open_end { OpenLinesHaveNoForm }
    ensures split { SplitLinesHaveNoForm }
    ensures cut { CutLinesHaveNoForm }
{}
