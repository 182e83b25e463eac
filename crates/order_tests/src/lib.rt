//! Tests of the ordering service: worked drafts; two clients that do put at once, each of whose puts a pace holds until the other is there;
//! more tickets than the queue holds.
#![tactic(auto)]

#[cfg(test)]
mod drafts;
#[cfg(test)]
mod meeting;
#[cfg(test)]
mod tests;
