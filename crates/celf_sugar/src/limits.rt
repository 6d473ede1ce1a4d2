//! The ranges of the numbers in an item.

/// The greatest of the first three numbers of a query, and of the number of a trace.
pub const MOST_STEPS: u64 = 100_000;

/// The greatest fourth number of a query, which says how often it is tried. The least is 1.
pub const MOST_ATTEMPTS: u64 = 1_000;

/// The greatest number of implicit arguments.
pub const MOST_IMPLICIT: u64 = 4_294_967_295;
