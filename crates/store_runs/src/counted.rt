//! A node that counts its calls.
ghost use Rattle.std.specs.Prelude.{◌≡◌};

use cbl_base::{Change, Input, NoMemory, NodeFault, NodeRule, NodeValue, RunFault};
use std::sync::atomic::{AtomicU64, Ordering};

/// Another node, each call of which is counted.
#[derive(Drop)]
pub(crate) struct Counted<'a, N: NodeRule> {
    node: N,
    calls: &'a AtomicU64,
}

impl<'a, N: NodeRule> Counted<'a, N> {
    /// This node, whose calls are counted here.
    pub(crate) fn new(node: N, calls: &'a AtomicU64) -> Counted<'a, N>
        ensures { ⟦<Counted<'a, N> as NodeRule>⟧.rule result ≡ N.rule node }
    {
        Counted { node, calls }
    }
}

impl<'a, N: NodeRule> NodeRule for Counted<'a, N> {
    ghost rule = { λ s. N.rule s.node };

    ghost ready = { λ s. N.ready s.node };

    ghost held = { λ s. N.held s.node };

    ghost one_kind = { λ s. N.one_kind s.node };

    fn reset(&mut self, inputs: &[Input]) -> Result<(), NoMemory> {
        self.calls.fetch_add(1, Ordering::SeqCst);
        self.node.reset(inputs)
    }

    fn apply(&mut self, changes: &[Change]) -> Result<(), NoMemory> {
        self.calls.fetch_add(1, Ordering::SeqCst);
        self.node.apply(changes)
    }

    fn probe(&self, changes: &[Change]) -> Result<NodeValue, NodeFault> {
        self.calls.fetch_add(1, Ordering::SeqCst);
        self.node.probe(changes)
    }

    fn value(&self) -> Result<&NodeValue, RunFault> {
        self.calls.fetch_add(1, Ordering::SeqCst);
        self.node.value()
    }

    fn place_violation(&self, place: u32) -> i64 {
        self.calls.fetch_add(1, Ordering::SeqCst);
        self.node.place_violation(place)
    }
}
