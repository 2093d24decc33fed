//! Laws of posting: what follows from the definitions alone. Each function does nothing, and its contract is proved.
ghost use Rattle.sg_post.specs.Laws.{PostedIsText, PostedStays};

/// What is posted stays posted: the text of a story is a front of the text of each story that goes on from it.
pub fn posted_stays_law()
    ensures { PostedStays }
{}

/// What is posted once sides are drawn, of a story that may be posted, is the text of its record: this is formed, and its
/// words are of their kinds.
pub fn posted_text_law()
    ensures { PostedIsText }
{}
