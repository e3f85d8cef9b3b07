//! A hold on a row.
ghost use Rattle.std.specs.Prelude.{◌≡◌, ◌≢◌};
ghost use Rattle.trie_depth.specs.declared.id.Id.{Id};
ghost use Rattle.edge_map.specs.declared.edge.Edge.{Edge};

use edge_map::Edge;
use std::marker::{Model, PhantomData};
use trie_depth::Level;

/// One hold on a row of the level's table. It must be spent: by `Context::release`, or as an edge of a node.
pub struct Held<L: Level> {
    row: usize,
    level: PhantomData<L>,
}

impl<L: Level> Model for Held<L> {
    ghost use Rattle.std.specs.Prelude.{ℕ};

    ghost Value = { ℕ };

    ghost view = { λ h. h.row };
}

impl<L: Level> Held<L> {
    pub(crate) fn new(row: usize) -> Held<L>
        ensures { result ≡ row }
    {
        Held {
            row,
            level: PhantomData,
        }
    }

    /// The hold that an edge has, which leads to a row of the level.
    pub fn of_edge(edge: Edge) -> Held<L>
        requires { (x : Id) → edge ≢ Edge.Key x }
        ensures { edge ≡ Edge.Node result }
    {
        match edge {
            Edge::Node(row) => Held::new(row),
            Edge::Key(_) => unreachable!(),
        }
    }

    /// The number of the row.
    pub fn row(&self) -> usize
        ensures { result ≡ self.now }
    {
        self.row
    }

    /// The hold as an edge, for a node one depth above.
    pub fn into_edge(self) -> Edge
        ensures { result ≡ Edge.Node self }
    {
        Edge::Node(self.into_row())
    }

    pub(crate) fn into_row(self) -> usize
        ensures { result ≡ self }
    {
        let Held { row, level: _ } = self;
        row
    }
}
