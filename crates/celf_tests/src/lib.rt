//! The tests of the libraries, through their public calls.
#![tactic(auto)]

#[cfg(test)]
mod contexts;
#[cfg(test)]
mod kernel;
#[cfg(test)]
mod printer;
#[cfg(test)]
mod run;
#[cfg(test)]
mod runs;
#[cfg(test)]
mod signature;
#[cfg(test)]
mod source;
#[cfg(test)]
mod trees;
