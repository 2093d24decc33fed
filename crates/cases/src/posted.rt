//! The elections of a stream of records are posted again, from the seeds of their offices and from what the records say
//! of the ballots. Told is how long the text of each stage is.
//!
//! The text of the last stage must be the record, and those of the earlier ones fronts of it. A sink that fails at any
//! one call must be left with a front. Where one of this fails, a line says so.
mod stages;
mod stream;
mod told;

pub(crate) use stream::tell;
