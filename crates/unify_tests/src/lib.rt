//! The tests of unification, through its public call.
#![tactic(auto)]

#[cfg(test)]
mod ready;
#[cfg(test)]
mod table;
#[cfg(test)]
mod texts;
