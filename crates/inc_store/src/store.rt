//! The store.
ghost use Rattle.std.specs.Prelude.{◌≡◌, ℕ, ◌+◌, ◌*◌, ◌-◌, ◌<◌, ◌≤◌, true, List, [], length, map, take, is_ok, IfOk, IfErr, IsTrue, OnOk, Some, slice_get};
ghost use Rattle.store_turns.specs.declared.outcome.Outcome.{Outcome};
ghost use Rattle.store_turns.specs.Cones.{has_cone};
ghost use Rattle.store_turns.specs.Meaning.{IsMeaning, layer_of, uses_in};
ghost use Rattle.store_turns.specs.Telling.{positions, places_in};
ghost use Rattle.store_build.specs.Aims.{AreLinked, Takes, graph_over, layer_at, start_of};
ghost use Rattle.inc_store.specs.Moves.{AreMoves, moved_to, is_moved};
ghost use Rattle.store_build.specs.Stops.{IsStop};
ghost use Rattle.store_build.specs.declared.cones.TheConstants.{MOST_CONES};
ghost use Rattle.store_build.specs.Unused.{unused_below};
ghost use Rattle.inc_store.specs.Stores.{IsWithin, changes_between};
ghost use Rattle.inc_store.specs.Views.{IsUsable, KeepsAll, KeepsNodes, graph_in, value_at, count_of, first_of, inputs_at, rules_in};

use crate::cells::Cells;
use crate::changed::Changed;
use crate::commits::commit_moves;
use cbl_base::{NoMemory, NodeId, NodeRule, NodeValue, Steps, VarId};
use layer_plan::Layers;
use std::alloc::Global;
use std::sync::ledger::Ledger;
use store_build::{LayerEval, Links, StoreFault, cone_of, parts_of};
use store_turns::Frame;

/// Nodes in layers behind the cells of variables, each with its value.
#[derive(Drop)]
pub struct Store<N: NodeRule> {
    pub(crate) nodes: Vec<N>,
    pub(crate) frame: Frame,
    pub(crate) cells: Cells,
    pub(crate) is_usable: bool,
    pub(crate) alloc: Global,
}

impl<N: NodeRule> Store<N> {
    /// A store of these nodes behind as many cells as there are numbers to start with. `Node` with the
    /// least node whose own operation fails though all its inputs have values, exactly where there is
    /// one, and its fault.
    ///
    /// There is one list of inputs for each id, those of the cells first. A cell without inputs is free and
    /// starts with its number; another takes the value of the one id in its list. Each id must be in a
    /// higher layer than those whose values it takes, as in what `plan` answers for these lists. The store
    /// keeps for each of at most 64 ids that nothing uses, those with the greatest ids, on which ids it
    /// stands, so that a trial of such a target needn't search for these.
    pub fn build<E: LayerEval<N>>(
        alloc: Global,
        nodes: Vec<N>,
        links: Links,
        start: &[i64],
        layers: &Layers,
        eval: &E,
    ) -> Result<Store<N>, StoreFault>
        requires linked { AreLinked (map N.rule nodes.items)
            (length start.now) links.inputs.items layers.now }
        requires takes { (o : ℕ → Outcome) →
            IsMeaning (graph_over (map N.rule nodes.items) (length start.now) links.inputs.items)
            (start_of start.now) o → Takes (map N.rule nodes.items)
            (length start.now) links.inputs.items o }
        ensures usable { IfOk result (λ s. IsUsable N.rule N.held N.ready s) }
        ensures rules { IfOk result (λ s. rules_in N.rule s ≡ map N.rule nodes.items) }
        ensures first { IfOk result (λ s. first_of s ≡ length start.now) }
        ensures graph { IfOk result (λ s.
            graph_in N.rule s ≡ graph_over (map N.rule nodes.items)
            (length start.now) links.inputs.items) }
        ensures layers { IfOk result (λ s. (j : ℕ) → layer_of s.frame j ≡ layer_at layers.now j) }
        ensures free { IfOk result (λ s. (j : ℕ) → j < length links.inputs.items →
            (graph_over (map N.rule nodes.items) (length start.now) links.inputs.items).is_free j ≡
            true → value_at s j ≡ start_of start.now j) }
        ensures fault { IfErr result (λ stop.
            IsStop (graph_over (map N.rule nodes.items) (length start.now) links.inputs.items)
            (start_of start.now) stop) }
        ensures cones { IfOk result (λ s. map (λ c. c.target) s.frame.cones.items ≡
            take MOST_CONES (unused_below (uses_in s.frame) (count_of s))) }
    {
        let parts = parts_of(alloc, nodes, links, start, layers, eval)?;
        Ok(Store {
            nodes: parts.nodes,
            frame: parts.frame,
            cells: Cells::new(parts.values),
            is_usable: true,
            alloc,
        })
    }

    /// Whether no commit failed.
    pub fn usable(&self) -> bool
        ensures { result ≡ self.now.is_usable }
    {
        self.is_usable
    }

    /// The value of an id. One step.
    pub fn read<L: Ledger>(&self, node: NodeId, steps: &mut Steps<L>) -> &NodeValue
        requires usable { IsUsable N.rule N.held N.ready self.now }
        requires within { node.0 < count_of self.now }
        ensures value { result.now ≡ value_at self.now node.0 }
        ensures steps { steps.new ≡ steps.old + 1 }
    {
        self.cells.read(node.0, steps)
    }

    /// Moves free cells to numbers, and gives all values that are others then, in order of id. `Node` with
    /// the least node whose own operation fails though all its inputs have values, exactly where there
    /// is one, and its fault. After any `Err` the store isn't usable, and only then. The field `solver` of
    /// a variable isn't looked at. Whatever the answer, the steps are at most four times what is touched.
    pub fn commit<L: Ledger>(
        &mut self,
        moves: &[(VarId, i64)],
        steps: &mut Steps<L>,
    ) -> Result<Changed, StoreFault>
        requires usable { IsUsable N.rule N.held N.ready self.old }
        requires moves { AreMoves (graph_in N.rule self.old) moves.now }
        ensures usable { self.new.is_usable ≡ is_ok result }
        ensures kept { OnOk result (IsUsable N.rule N.held N.ready self.new) }
        ensures nodes { OnOk result (KeepsNodes N.rule self.old self.new) }
        ensures moved { OnOk result ((j : ℕ) → j < count_of self.old →
            (graph_in N.rule self.old).is_free j ≡ true →
            value_at self.new j ≡ moved_to moves.now (value_at self.old) j) }
        ensures changed { IfOk result (λ changed.
            changed.list.items ≡ changes_between 0 self.old.cells self.new.cells) }
        ensures fault { IfErr result (λ stop.
            IsStop (graph_in N.rule self.old) (moved_to moves.now (value_at self.old)) stop) }
        ensures steps { IsWithin (graph_in N.rule self.old) (value_at self.old)
            (moved_to moves.now (value_at self.old)) (is_moved moves.now)
            (uses_in self.old.frame) steps.old steps.new }
    {
        if moves.is_empty() {
            return Ok(Changed {
                list: Vec::new(self.alloc),
            });
        }
        self.is_usable = false;
        let changed = commit_moves(
            self.alloc,
            &self.frame,
            &mut self.nodes,
            &mut self.cells,
            moves,
            steps,
        )?;
        self.is_usable = true;
        Ok(changed)
    }

    /// Keeps on which ids a target stands, so that trials of it needn't search for them first. All else
    /// stays as it is, also where memory runs out. It takes a byte for each id up to the last one on which
    /// the target doesn't stand; each trial looks through the targets that are kept.
    pub fn keep(&mut self, target: NodeId) -> Result<(), NoMemory>
        requires usable { IsUsable N.rule N.held N.ready self.old }
        requires within { target.0 < count_of self.old }
        ensures usable { IsUsable N.rule N.held N.ready self.new }
        ensures same { KeepsAll self.old self.new }
        ensures kept { OnOk result (IsTrue (has_cone self.new.frame.cones.items target.0)) }
    {
        if self.frame.cone(target).is_some() {
            return Ok(());
        }
        let cone = cone_of(self.alloc, self.frame.inputs.as_slice(), target.0)?;
        self.frame.cones.push(cone)?;
        Ok(())
    }

    /// The node of an id behind the cells. It was reset, has the rule of the node that was given to
    /// `build`, and holds its inputs' values.
    pub fn node(&self, node: NodeId) -> &N
        requires usable { IsUsable N.rule N.held N.ready self.now }
        requires past { first_of self.now ≤ node.0 }
        requires within { node.0 < count_of self.now }
        ensures ready { N.ready result.now }
        ensures rule { slice_get (rules_in N.rule self.now) (node.0 - first_of self.now) ≡
            Some (N.rule result.now) }
        ensures held { N.held result.now ≡ map (value_at self.now) (inputs_at self.now node.0) }
    {
        &self.nodes[(node.0 - self.frame.first) as usize]
    }

    /// How its nodes hang together: which ids are cells, and each id's inputs, layer and uses.
    pub fn frame(&self) -> &Frame
        ensures { result.now ≡ self.now.frame }
    {
        &self.frame
    }

    /// The ids whose values an id takes, in order.
    pub fn inputs(&self, node: NodeId) -> &[NodeId]
        requires { node.0 < count_of self.now }
        ensures { map (λ i. i.0) result.now ≡ inputs_at self.now node.0 }
    {
        &self.frame.inputs[node.0 as usize]
    }

    /// The ids that use an id, each with the place, and once for each place.
    pub fn uses(&self, node: NodeId) -> &[(NodeId, u32)]
        requires usable { IsUsable N.rule N.held N.ready self.now }
        requires within { node.0 < count_of self.now }
        ensures frame { result.now ≡ uses_in self.now.frame node.0 }
        ensures places { (j : ℕ) → places_in j result.now ≡
            positions node.0 (inputs_at self.now j) }
    {
        &self.frame.uses[node.0 as usize]
    }

    /// The layer of an id.
    pub fn layer(&self, node: NodeId) -> u32
        requires usable { IsUsable N.rule N.held N.ready self.now }
        requires within { node.0 < count_of self.now }
        ensures { result ≡ layer_of self.now.frame node.0 }
    {
        self.frame.layers[node.0 as usize]
    }
}
