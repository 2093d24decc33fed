//! The law of facts. Its function does nothing: what it ensures is the law.
ghost use Rattle.sg_facts.specs.Laws.{FactsAreListed};

/// What the lines of a record say at a coordinate (commitments, opened halves, flags, places, totals, codes) stands in
/// its lists there.
pub fn facts_law()
    ensures { FactsAreListed }
{}
