//! The nodes of a layer are reset, each to its own inputs.
ghost use Rattle.std.specs.Prelude.{◌≡◌, map, All, IfOk, IsTrue};
ghost use Rattle.cbl_base.specs.Inputs.{kinds_of};

use cbl_base::{Input, NoMemory, NodeRule};
use std::alloc::Global;

/// Who resets the nodes of a layer.
pub trait LayerEval<N: NodeRule> {
    /// Resets each node to the inputs beside it, which are of the number and kinds that it takes, and
    /// gives the nodes back in order, with the same rules.
    fn reset(&self, alloc: Global, jobs: Vec<(N, Vec<Input>)>) -> Result<Vec<N>, NoMemory>
        requires { All (λ j. IsTrue ((N.rule j.0).takes (kinds_of j.1.items))) jobs.items }
        ensures ready { IfOk result (λ v. All N.ready v.items) }
        ensures rules { IfOk result (λ v. map N.rule v.items ≡ map (λ j. N.rule j.0) jobs.items) }
        ensures held { IfOk result (λ v. map N.held v.items ≡ map (λ j. j.1.items) jobs.items) };
}

/// Resets one after another.
#[derive(Clone, Copy)]
pub struct PlainEval;

impl<N: NodeRule> LayerEval<N> for PlainEval {
    fn reset(&self, alloc: Global, jobs: Vec<(N, Vec<Input>)>) -> Result<Vec<N>, NoMemory>
        requires { All (λ j. IsTrue ((N.rule j.0).takes (kinds_of j.1.items))) jobs.items }
        ensures ready { IfOk result (λ v. All N.ready v.items) }
        ensures rules { IfOk result (λ v. map N.rule v.items ≡ map (λ j. N.rule j.0) jobs.items) }
        ensures held { IfOk result (λ v. map N.held v.items ≡ map (λ j. j.1.items) jobs.items) }
    {
        let mut nodes = Vec::new(alloc);
        for (mut node, inputs) in jobs {
            node.reset(inputs.as_slice())?;
            nodes.push(node)?;
        }
        Ok(nodes)
    }
}
