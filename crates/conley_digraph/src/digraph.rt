//! Digraphs.

ghost use Rattle.std.specs.Prelude.{◌≡◌, ◌<◌, ◌≤◌, ◌^◌, ◌↔◌, ℕ, [], true, IfOk, length, slice_index, slice_index_or};
ghost use Rattle.std.specs.List.Sorted.{IsStrictlyIncreasing};
ghost use Rattle.conley_walk.specs.Walk.{Reaches};
ghost use Rattle.conley_lists.specs.Lists.{items_of, ListedStep, IsDigraph, entries_of, IsFirstOutOfRange, IsOrderedCopy};
ghost use Rattle.conley_order.specs.ClassRows.{is_at_or_below};
ghost use Rattle.conley_digraph.specs.Heads.{AreHeads};
ghost use Rattle.conley_digraph.specs.Classes.{AreClasses};

use crate::numbering::{classes, renumbered};
use crate::rows::class_rows;
use crate::search::closing_of;
use crate::{DigraphError, NoMemory};
use conley_lists::{all_ordered, first_out_of_range};
use conley_order::ReachRows;
use std::alloc::Global;
use std::marker::Model;

/// Nodes, numbered from 0, and steps that lead from each to its heads.
#[derive(Drop)]
pub struct Digraph {
    heads: Vec<Vec<u32>>,
}

impl Model for Digraph {
    ghost use Rattle.std.specs.Prelude.{ℕ, List};
    ghost use Rattle.conley_lists.specs.Lists.{items_of};
    ghost use Rattle.conley_digraph.specs.Heads.{AreHeads};

    ghost Value = { List (List ℕ) };

    ghost view = { λ d. items_of d.heads.items };

    ghost invariant = { λ d. AreHeads (items_of d.heads.items) };
}

impl Digraph {
    /// The digraph with a step from each node to each number of its list; the lists may be in any order, also with repeats.
    pub fn new(alloc: Global, steps: &[Vec<u32>]) -> Result<Digraph, DigraphError>
        requires count { length steps.now < 2 ^ 32 }
        requires entries { length (entries_of (items_of steps.now)) < 2 ^ 32 }
        ensures range { (k : ℕ) → result ≡ Err (DigraphError.Range k) → IsFirstOutOfRange (items_of steps.now) k }
        ensures ok { IfOk result (λ digraph. IsDigraph (items_of steps.now) × IsOrderedCopy digraph (items_of steps.now)) }
    {
        if let Some(entry) = first_out_of_range(steps) {
            return Err(DigraphError::Range(entry));
        }
        let heads = all_ordered(alloc, steps)?;
        Ok(Digraph { heads })
    }

    /// How many nodes there are. It takes no memory.
    pub fn count(&self) -> usize
        ensures count { result ≡ length self.now }
        ensures heads { AreHeads self.now }
    {
        self.heads.len()
    }

    /// Where the steps of a node lead, ascending and distinct. It takes no memory.
    pub fn heads(&self, node: u32) -> &[u32]
        requires { node < length self.now }
        ensures steps { result.now ≡ slice_index_or self.now node [] }
        ensures ascending { IsStrictlyIncreasing result.now }
    {
        &self.heads[node as usize]
    }

    /// For each node the number of its class of mutual reach. Classes are numbered from 0 in the order of their least nodes.
    pub fn classes(&self, alloc: Global) -> Result<Vec<u32>, NoMemory>
        ensures classes { IfOk result (λ class_of. AreClasses self.now class_of.items) }
        ensures low { IfOk result (λ class_of. (x : ℕ) → x < length self.now → slice_index class_of.items x ≤ x) }
    {
        classes(alloc, &self.heads)
    }

    /// Reach of nodes by their classes: node a is at or below node b where a walk leads from b to a.
    pub fn reach_rows(&self, alloc: Global) -> Result<ReachRows, NoMemory>
        ensures classes { IfOk result (λ rows. AreClasses self.now rows.class_of) }
        ensures reach { IfOk result (λ rows. (a b : ℕ) → a < length self.now → b < length self.now → (is_at_or_below rows a b ≡ true)
            ↔ Reaches (ListedStep self.now) b a) }
    {
        let closing = closing_of(alloc, &self.heads)?;
        let class_of = renumbered(alloc, &closing.numbers, closing.roots.len())?;
        let rows = class_rows(alloc, &self.heads, &class_of, &closing.roots)?;
        Ok(ReachRows::from_rows(class_of, rows))
    }
}
