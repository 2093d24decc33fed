//! The kept rows of a stream of cases are opened. Told is of each case whether its rows are an office's, or which row of
//! which table is the first bad one.
mod lines;
mod rows;

pub(crate) use rows::tell;
