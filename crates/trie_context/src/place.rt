//! The place of a row that was opened.
ghost use Rattle.std.specs.Prelude.{◌≡◌};

use node_table::Spot;
use std::marker::{Model, PhantomData};
use trie_depth::Level;

/// The reserved number of a row that was taken out of the level's table, with the row's hash. It must be spent: by
/// `Context::close` or `Context::discard`.
pub struct Place<L: Level> {
    spot: Spot,
    level: PhantomData<L>,
}

impl<L: Level> Model for Place<L> {
    ghost use Rattle.node_table.specs.Table.{Spot as Seen, spot_code};

    ghost Value = { Seen };

    ghost coded = { spot_code };

    ghost view = { λ p. p.spot };
}

impl<L: Level> Place<L> {
    pub(crate) fn new(spot: Spot) -> Place<L>
        ensures { result ≡ spot }
    {
        Place {
            spot,
            level: PhantomData,
        }
    }

    pub(crate) fn into_spot(self) -> Spot
        ensures { result ≡ self }
    {
        let Place { spot, level: _ } = self;
        spot
    }
}
