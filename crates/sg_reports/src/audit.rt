//! `audit`: a record is judged while it is read, and the report of the verdict is written.

mod answering;
mod auditor;

pub use answering::answer_audit;
