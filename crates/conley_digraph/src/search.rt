//! A search of a digraph that looks at each step once and closes one class of mutual reach after another, after Gabow.

ghost use Rattle.std.specs.Prelude.{◌≡◌, ◌<◌, ◌^◌, ℕ, All, IfOk, OnOk, length};
ghost use Rattle.std.specs.List.Sorted.{IsStrictlyIncreasing};
ghost use Rattle.conley_lists.specs.Lists.{items_of, IsDigraph};
ghost use Rattle.conley_digraph.specs.Search.{stage_of, IsMet, IsSearchOf};
ghost use Rattle.conley_digraph.specs.Turn.{Merges, ClosesAll, Meets, Passes, Closes, Leaves, IsTurned};
ghost use Rattle.conley_digraph.specs.Closing.{AreNumbers, AreClosing};

use std::alloc::{AllocError, Global};

/// How far the search is with a node.
#[derive(Clone, Copy)]
pub(crate) enum Stage {
    New,
    /// At this place of the stack.
    Open(usize),
    /// In the class that was closed after so many others.
    Closed(usize),
}

/// A search on its way.
#[derive(Drop)]
pub(crate) struct Search {
    stages: Vec<Stage>,
    /// For each node one turn for each head that it hasn't looked at, and one to be left.
    turns: Vec<usize>,
    /// The open nodes in the order in which they were met.
    stack: Vec<u32>,
    /// The places at which the segments of the stack begin. The nodes of a segment reach each other.
    bounds: Vec<usize>,
    /// The places of the open nodes that the search hasn't left.
    path: Vec<usize>,
    /// A node of each closed class.
    roots: Vec<u32>,
}

/// Closes each of the nodes.
fn close_all(stages: &mut [Stage], nodes: &[u32], class: usize)
    requires { All (λ x. x < length stages.old) nodes.now }
    ensures { ClosesAll stages.old stages.new nodes.now class }
{
    for x in nodes {
        stages[*x as usize] = Stage::Closed(class);
    }
}

/// Takes out the bounds past the place: their segments and that of the place become one.
fn merge(bounds: &mut Vec<usize>, place: usize)
    requires { IsStrictlyIncreasing bounds.old.items }
    ensures { Merges bounds.old.items bounds.new.items place }
{
    let mut kept = bounds.len();
    while kept > 0 && bounds[kept - 1] > place {
        kept -= 1;
    }
    bounds.truncate(kept);
}

impl Search {
    /// All nodes are new.
    fn new(alloc: Global, steps: &[Vec<u32>]) -> Result<Search, AllocError>
        ensures search { IfOk result (λ search. IsSearchOf (items_of steps.now) search) }
        ensures path { IfOk result (λ search. length search.path.items ≡ 0) }
    {
        let stages = vec![in alloc; Stage::New; steps.len()]?;
        let mut turns = Vec::new(alloc);
        for heads in steps {
            turns.push(heads.len() + 1)?;
        }
        Ok(Search {
            stages,
            turns,
            stack: Vec::new(alloc),
            bounds: Vec::new(alloc),
            path: Vec::new(alloc),
            roots: Vec::new(alloc),
        })
    }

    /// Opens a new node, as a segment of its own.
    fn meet(&mut self, x: u32) -> Result<(), AllocError>
        requires { x < length self.old.stages.items }
        ensures { OnOk result (Meets self.old self.new x) }
    {
        let place = self.stack.len();
        self.stack.push(x)?;
        self.bounds.push(place)?;
        self.path.push(place)?;
        self.stages[x as usize] = Stage::Open(place);
        Ok(())
    }

    /// Follows a step from the last segment to the node: a new one is opened, and an open one closes a circle.
    fn pass(&mut self, y: u32) -> Result<(), AllocError>
        requires node { y < length self.old.stages.items }
        requires bounds { IsStrictlyIncreasing self.old.bounds.items }
        ensures { OnOk result (Passes self.old self.new y) }
    {
        match self.stages[y as usize] {
            Stage::New => self.meet(y),
            Stage::Open(place) => {
                merge(&mut self.bounds, place);
                Ok(())
            }
            Stage::Closed(_) => Ok(()),
        }
    }

    /// Closes the last segment, which begins at the place, and leaves its first node.
    fn close(&mut self, place: usize) -> Result<(), AllocError>
        requires place { place < length self.old.stack.items }
        requires bounds { 0 < length self.old.bounds.items }
        requires path { 0 < length self.old.path.items }
        requires nodes { All (λ x. x < length self.old.stages.items) self.old.stack.items }
        ensures { OnOk result (Closes self.old self.new place) }
    {
        let class = self.roots.len();
        self.roots.push(self.stack[place])?;
        close_all(&mut self.stages, &self.stack[place..], class);
        self.stack.truncate(place);
        self.bounds.truncate(self.bounds.len() - 1);
        self.path.truncate(self.path.len() - 1);
        Ok(())
    }

    /// Leaves the last node of the path, and closes its segment if it is the first there.
    fn leave(&mut self, place: usize) -> Result<(), AllocError>
        requires place { place < length self.old.stack.items }
        requires bounds { 0 < length self.old.bounds.items }
        requires path { 0 < length self.old.path.items }
        requires nodes { All (λ x. x < length self.old.stages.items) self.old.stack.items }
        ensures { OnOk result (Leaves self.old self.new place) }
    {
        if self.bounds[self.bounds.len() - 1] == place {
            return self.close(place);
        }
        self.path.truncate(self.path.len() - 1);
        Ok(())
    }

    /// One turn of the last node of the path: it looks at one head more, the last first, or is left.
    fn turn(&mut self, steps: &[Vec<u32>]) -> Result<(), AllocError>
        requires digraph { IsDigraph (items_of steps.now) }
        requires search { IsSearchOf (items_of steps.now) self.old }
        requires path { 0 < length self.old.path.items }
        ensures { OnOk result (IsTurned (items_of steps.now) self.old self.new) }
    {
        let place = self.path[self.path.len() - 1];
        let x = self.stack[place] as usize;
        let turns = self.turns[x] - 1;
        self.turns[x] = turns;
        if turns > 0 {
            return self.pass(steps[x][turns - 1]);
        }
        self.leave(place)
    }

    /// Closes a new node and all that it reaches, where none is open.
    fn visit(&mut self, steps: &[Vec<u32>], root: u32) -> Result<(), AllocError>
        requires digraph { IsDigraph (items_of steps.now) }
        requires search { IsSearchOf (items_of steps.now) self.old }
        requires path { length self.old.path.items ≡ 0 }
        requires node { root < length steps.now }
        requires fresh { stage_of self.old.stages.items root ≡ Stage.New }
        ensures search { OnOk result (IsSearchOf (items_of steps.now) self.new) }
        ensures path { OnOk result (length self.new.path.items ≡ 0) }
        ensures met { OnOk result ((y : ℕ) → IsMet self.old.stages.items y → IsMet self.new.stages.items y) }
        ensures root { OnOk result (IsMet self.new.stages.items root) }
    {
        self.meet(root)?;
        while self.path.len() > 0 {
            self.turn(steps)?;
        }
        Ok(())
    }
}

/// The classes in the order in which they were closed.
#[derive(Drop)]
pub(crate) struct Closing {
    /// For each node the number of its class.
    pub(crate) numbers: Vec<usize>,
    /// A node of each class.
    pub(crate) roots: Vec<u32>,
}

/// The class of each node where all are closed.
fn numbers_of(alloc: Global, stages: &[Stage]) -> Result<Vec<usize>, AllocError>
    requires { (y : ℕ) → y < length stages.now → (k : ℕ) × (stage_of stages.now y ≡ Stage.Closed k) }
    ensures { IfOk result (λ numbers. AreNumbers stages.now numbers.items (length stages.now)) }
{
    let mut numbers = Vec::new(alloc);
    for stage in stages {
        match stage {
            Stage::Closed(class) => numbers.push(*class)?,
            _ => unreachable!(),
        }
    }
    Ok(numbers)
}

/// The classes of mutual reach, each after those that it reaches.
pub(crate) fn closing_of(alloc: Global, steps: &[Vec<u32>]) -> Result<Closing, AllocError>
    requires digraph { IsDigraph (items_of steps.now) }
    requires count { length steps.now < 2 ^ 32 }
    ensures { IfOk result (λ closing. AreClosing (items_of steps.now) closing.numbers.items closing.roots.items) }
{
    let mut search = Search::new(alloc, steps)?;
    for root in 0..steps.len() as u32 {
        if let Stage::New = search.stages[root as usize] {
            search.visit(steps, root)?;
        }
    }
    let numbers = numbers_of(alloc, &search.stages)?;
    Ok(Closing {
        numbers,
        roots: search.roots,
    })
}
