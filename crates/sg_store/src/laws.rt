//! Laws of a keeper over a database. Each function does nothing, and its contract is proved.
ghost use Rattle.sg_store.specs.Laws.{MemoryIsSure};

/// Each state of a store in memory is clean and open, and keeps its trees in order. So a keeper over one tells its rows.
pub fn memory_law()
    ensures { MemoryIsSure }
{}
