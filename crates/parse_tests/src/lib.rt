//! Tests of the parsers and of the printer: 121 queries and 20 applications with the line and the column of their faults; the accesses of
//! 22 queries; where tokens stand; the layout of a print.
#![tactic(auto)]

#[cfg(test)]
mod declared;
#[cfg(test)]
mod places;
#[cfg(test)]
mod plans;
#[cfg(test)]
mod prints;
#[cfg(test)]
mod span_tests;
#[cfg(test)]
mod texts;
