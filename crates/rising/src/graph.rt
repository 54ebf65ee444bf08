//! Directed graphs that a search can walk.

ghost use Rattle.std.specs.Prelude.{◌≡◌, ◌+◌, ◌<◌, true};
ghost use Rattle.rising.specs.Graph.{Digraph};
ghost use Rattle.rising.specs.Chains.{IsNextColumn};

/// A directed graph: its nodes are numbered from 0, and a node's edges by columns, from 0 too. A node
/// needs no edge in each column.
pub trait Graph {
    /// Its nodes, and where each leads to in which column.
    ghost digraph: { Self → Digraph };

    /// How many nodes there are.
    fn nodes(&self) -> usize
        ensures { result ≡ (digraph self.now).nodes };

    /// How many columns there are.
    fn columns(&self) -> usize
        ensures { result ≡ (digraph self.now).columns };

    /// The column of the first edge from a node, or the number of columns where there is none.
    fn first(&self, node: usize) -> usize
        requires { node < (digraph self.now).nodes }
        ensures { IsNextColumn (digraph self.now) node 0 result };

    /// The column of the next edge from a node behind the one in a column, or the number of columns
    /// where there is none.
    fn next(&self, node: usize, column: usize) -> usize
        requires node { node < (digraph self.now).nodes }
        requires column { column < (digraph self.now).columns }
        requires leads { (digraph self.now).leads node column ≡ true }
        ensures { IsNextColumn (digraph self.now) node (column + 1) result };

    /// The node that a node leads to in a column.
    fn end(&self, node: usize, column: usize) -> usize
        requires node { node < (digraph self.now).nodes }
        requires column { column < (digraph self.now).columns }
        requires leads { (digraph self.now).leads node column ≡ true }
        ensures value { result ≡ (digraph self.now).after node column }
        ensures within { result < (digraph self.now).nodes };
}
