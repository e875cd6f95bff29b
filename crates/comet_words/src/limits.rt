//! The limits of the words' values, and what holds where an option isn't given.

/// Digits of a number.
pub(crate) const MOST_DIGITS: usize = 20;

/// Threads that work.
pub(crate) const MOST_WORKERS: u64 = 64;

/// Units of fuel.
pub(crate) const MOST_FUEL: u64 = 1 << 62;

/// The size of the generated program: queens on a board.
pub(crate) const LEAST_SIZE: u64 = 4;

pub(crate) const MOST_SIZE: u64 = 2_000;

pub(crate) const DEFAULT_SEED: u64 = 0;

pub(crate) const DEFAULT_WORKERS: u32 = 1;

pub(crate) const DEFAULT_FUEL: u64 = 1 << 40;
