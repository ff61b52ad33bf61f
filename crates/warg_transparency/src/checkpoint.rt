//! The checkpoint of a log and a map.

ghost use Rattle.warg_transparency.specs.declared.log_tree.LogTree as log;
ghost use Rattle.warg_transparency.specs.declared.map_tree.MapTree as map;

use crate::log_tree::LogTree;
use crate::map_tree::MapTree;
use warg_registry::Checkpoint;

/// What can be taken from a log and a map, as `Checkpoint::of(&log, &map)`.
pub trait OfTrees: Sized {
    // Whether the value says what the log and the map stand at.
    ghost is_of_trees: { log.LogTree → map.MapTree → Self → Type 0 };

    /// What the log and the map stand at.
    fn of(log: &LogTree, map: &MapTree) -> Self
        ensures { is_of_trees log.now map.now result };
}

impl OfTrees for Checkpoint {
    ghost use Rattle.warg_transparency.specs.Standings.{IsOfTrees};

    ghost is_of_trees = { IsOfTrees };

    fn of(log: &LogTree, map: &MapTree) -> Checkpoint {
        Checkpoint {
            log_root: log.root(),
            log_length: log.len(),
            map_root: map.root(),
        }
    }
}
