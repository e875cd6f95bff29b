//! Who is read.
use std::marker::Sized;

/// Who keeps the values that are read, and the weights.
pub trait Held {
    ghost use Rattle.std.specs.Prelude.{◌≡◌, ℕ, ℤ};

    /// Whether it can be read.
    ghost is_ready: { Self → Type 0 };

    /// The number of an id.
    ghost number_of: { Self → ℕ → ℤ };

    /// The violation at a place of an id, counted from 0.
    ghost violation_of: { Self → ℕ → ℕ → ℤ };

    /// The weight of a system's member, each counted from 0.
    ghost weight_of: { Self → ℕ → ℕ → ℤ };

    /// The number of an id.
    fn number(&self, id: u32) -> i64
        requires { is_ready self.now }
        ensures { result ≡ number_of self.now id };

    /// The violation at a place of an id, counted from 0.
    fn violation(&self, id: u32, place: usize) -> i64
        requires { is_ready self.now }
        ensures { result ≡ violation_of self.now id place };

    /// The weight of a system's member, each counted from 0.
    fn weight(&self, system: usize, member: usize) -> i64
        requires { is_ready self.now }
        ensures { result ≡ weight_of self.now system member };
}
