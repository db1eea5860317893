//! Lists that were let go, whose room is used again.

ghost use Rattle.std.specs.Prelude.{◌≡◌, []};

use dcsp_defs::Pair;
use std::alloc::Global;

/// Lists that were let go.
#[derive(Debug, Drop)]
pub struct Spare {
    pub pairs: Vec<Vec<Pair>>,
    pub stamps: Vec<Vec<u64>>,
}

impl Spare {
    /// No list.
    pub fn new(alloc: Global) -> Spare {
        Spare {
            pairs: Vec::new(alloc),
            stamps: Vec::new(alloc),
        }
    }
}

/// An empty list, with the room of one that was let go, if there is one.
pub fn empty_list<T: Drop>(lists: &mut Vec<Vec<T>>, alloc: Global) -> Vec<T>
    ensures { result.items ≡ [] }
{
    match lists.pop() {
        Some(list) => {
            let mut room = list;
            room.clear();
            room
        }
        None => Vec::new(alloc),
    }
}

/// Adds a list to those that were let go. Where it finds no place it is dropped.
pub fn let_go<T: Drop>(lists: &mut Vec<Vec<T>>, list: Vec<T>) {
    let _kept = lists.push(list);
}
