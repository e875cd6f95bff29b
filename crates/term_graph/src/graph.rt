//! The graph of the terms that were added.
ghost use Rattle.std.specs.Prelude.{◌≡◌, ◌+◌, ◌^◌, ◌<◌, ◌≤◌, [], List, length, map, Some, slice_get, All};
ghost use Rattle.std.specs.Prelude.{IfOk, IfErr, OnOk, OnErr};
ghost use Rattle.cbl_base.specs.declared.limits.TheConstants.{MAX_TERM_NODES};

use crate::adding::{add_to, cut};
use crate::codes::Codes;
use crate::head::Head;
use crate::node::Node;
use crate::stop::GraphStop;
use cbl_base::{NodeId, Place};
use std::alloc::Global;
use term_model::Term;

/// The distinct subterms of the terms that were added, each as a node behind the cells of the variables.
#[derive(Drop)]
pub struct Graph {
    pub(crate) alloc: Global,
    pub(crate) cells: u32,
    pub(crate) codes: Codes,
    pub(crate) nodes: Vec<Node>,
    ghost low: { cells + MAX_TERM_NODES ≤ 2 ^ 32 },
    ghost few: { length nodes.items ≤ MAX_TERM_NODES },
}

impl Graph {
    ghost use Rattle.term_count.specs.Numbering.{terms_after};
    ghost use Rattle.term_graph.specs.Graphs.{HasNode, IsGraphOf, StopsAt, end_of, place_in};
    ghost use Rattle.term_graph.specs.Heads.{head_of, IsPlaceOf};
    ghost use Rattle.term_graph.specs.Ids.{HasCells, id_among, ids_of};
    ghost use Rattle.term_model.specs.Subterms.{arguments_of};
    ghost use Rattle.term_model.specs.declared.term.Term.{Term};
    ghost use Rattle.term_model.specs.declared.term.Term.TheViews.{out-Term};

    /// No term was added yet. The ids below the number of cells are those of variables.
    pub fn new(alloc: Global, cells: u32) -> Graph
        requires { cells + MAX_TERM_NODES ≤ 2 ^ 32 }
        ensures graph { IsGraphOf result [] }
        ensures cells { result.cells ≡ cells }
    {
        Graph {
            alloc,
            cells,
            codes: Codes::new(alloc),
            nodes: Vec::new(alloc),
        }
    }

    /// Adds the distinct subterms of a term, in post-order, each unless one that is equal to it is
    /// there, and answers the term's id. `TooMany` exactly where there would be more nodes than the
    /// limit of term nodes. With an error the graph stays the one that it was.
    pub fn add(&mut self, term: &Term) -> Result<NodeId, GraphStop>
        requires { HasCells self.old.cells term.now }
        ensures graph { OnOk result ((ts : List Term) → IsGraphOf self.old ts →
            IsGraphOf self.new (terms_after ts term.now)) }
        ensures id { IfOk result (λ id. (ts : List Term) → IsGraphOf self.old ts →
            id.0 ≡ id_among self.old.cells (terms_after ts term.now) term.now) }
        ensures within { IfOk result (λ id. id.0 < end_of self.new) }
        ensures stop { IfErr result (λ stop. (ts : List Term) → IsGraphOf self.old ts →
            StopsAt (terms_after ts term.now) stop) }
        ensures stays { OnErr result ((ts : List Term) → IsGraphOf self.old ts →
            IsGraphOf self.new ts) }
        ensures cells { self.new.cells ≡ self.old.cells }
    {
        let codes = self.codes.len();
        let nodes = self.nodes.len();
        match add_to(self, term) {
            Ok(id) => Ok(id),
            Err(stop) => {
                cut(self, codes, nodes);
                Err(stop)
            }
        }
    }

    /// How many cells there are.
    pub fn cells(&self) -> u32
        ensures { result ≡ self.now.cells }
    {
        self.cells
    }

    /// How many nodes there are behind the cells.
    pub fn len(&self) -> usize
        ensures count { result ≡ length self.now.nodes.items }
        ensures terms { (ts : List Term) → IsGraphOf self.now ts → result ≡ length ts }
    {
        self.nodes.len()
    }

    /// What is kept of a node.
    fn node(&self, node: NodeId) -> &Node
        requires { HasNode self.now node }
        ensures { slice_get self.now.nodes.items (place_in self.now node) ≡ Some result.now }
    {
        let place = (node.0 - self.cells) as usize;
        &self.nodes[place]
    }

    /// What a node computes.
    pub fn head(&self, node: NodeId) -> &Head
        requires { HasNode self.now node }
        ensures { (ts : List Term) (t : Term) → IsGraphOf self.now ts →
            slice_get ts (place_in self.now node) ≡ Some t → head_of t ≡ Some result.now }
    {
        &self.node(node).head
    }

    /// Where the node of an operation stands in the text, at its first time. That of a constant is
    /// of no use.
    pub fn place(&self, node: NodeId) -> Place
        requires { HasNode self.now node }
        ensures { (ts : List Term) (t : Term) → IsGraphOf self.now ts →
            slice_get ts (place_in self.now node) ≡ Some t → IsPlaceOf t result }
    {
        self.node(node).place
    }

    /// The ids of a node's arguments, in order, each smaller than its own.
    pub fn inputs(&self, node: NodeId) -> &[NodeId]
        requires { HasNode self.now node }
        ensures inputs { (ts : List Term) (t : Term) → IsGraphOf self.now ts →
            slice_get ts (place_in self.now node) ≡ Some t →
            ids_of result.now ≡ map (id_among self.now.cells ts) (arguments_of (out-Term t)) }
        ensures earlier { (ts : List Term) → IsGraphOf self.now ts →
            All (λ input. input.0 < node.0) result.now }
    {
        self.node(node).inputs.as_slice()
    }
}
