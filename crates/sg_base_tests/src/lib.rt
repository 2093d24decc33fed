//! Tests of the libraries below a record, and of the words of the command line: the calls that may want memory also succeed, and
//! values are those found by hand or by other programs.
#![tactic(auto)]

#[cfg(test)]
mod commit;
#[cfg(test)]
mod forms;
#[cfg(test)]
mod lines;
#[cfg(test)]
mod outside;
#[cfg(test)]
mod plan;
#[cfg(test)]
mod plan_text;
#[cfg(test)]
mod report;
#[cfg(test)]
mod streams;
#[cfg(test)]
mod tables;
#[cfg(test)]
mod words;
