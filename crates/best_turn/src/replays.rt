//! A state that answers requests, and the entries of its history.
ghost use Rattle.std.specs.Prelude.{◌≡◌, ◌↔◌, IfOk, MatchResult};

use cbl_base::NoMemory;

/// A state whose replies can be had again by asking it again: the state after a request and the reply
/// are functions of the state and the request.
///
/// Its meanings are `takes` (which requests a state takes), `after` (the state after a request),
/// `answer` (the reply) and `can_have` (which replies a request can have, whatever the state is).
pub trait Replays: Drop {
    type Request: Drop;

    type Reply: Drop;

    ghost takes: { Self → Self.Request → Type 0 };

    ghost after: { Self → Self.Request → Self };

    ghost answer: { Self → Self.Request → Self.Reply };

    ghost can_have: { Self.Request → Self.Reply → Type 0 };

    /// The reply that `step` would give. It changes nothing.
    fn reply(&self, request: &Self::Request) -> Result<Self::Reply, NoMemory>
        requires { takes self.now request.now }
        ensures { IfOk result (λ r. r ≡ answer self.now request.now) };

    /// Makes the state after the request, and gives its reply. With `NoMemory` the state stays as it was.
    fn step(&mut self, request: &Self::Request) -> Result<Self::Reply, NoMemory>
        requires { takes self.old request.now }
        ensures { MatchResult result (λ r. (r ≡ answer self.old request.now) ×
            (self.new ≡ after self.old request.now)) (λ _. self.new ≡ self.old) };

    // No request changes which requests the state takes.
    ghost takes_same: { (s : Self) (q p : Self.Request) → takes s q →
        (takes (after s q) p ↔ takes s p) };

    // The state's replies are such that the request can have them.
    ghost answer_had: { (s : Self) (q : Self.Request) → takes s q → can_have q (answer s q) };
}

/// A call in a history: the iteration in whose name it was made, the request, and the reply.
#[derive(Drop)]
pub struct Entry<Q, R> {
    pub iteration: u32,
    pub request: Q,
    pub reply: R,
}

/// How long the history was with a call's entry, which is 1 for the first.
#[derive(Clone, Copy, PartialEq, Eq, Debug, Drop)]
pub struct Front(pub u64);
