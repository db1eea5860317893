//! Where cells may be used again. It is a hint: whoever takes one tests it.

use std::alloc::Global;

/// The first cells of lists that were given back, by the length of the list.
#[derive(Drop)]
pub struct Freed {
    alloc: Global,
    starts: Vec<Vec<u32>>,
}

impl Freed {
    /// No cell.
    pub fn new(alloc: Global) -> Freed {
        Freed {
            alloc,
            starts: Vec::new(alloc),
        }
    }

    /// Where so many cells may be used again. Where there are none, the answer is beyond all cells.
    pub fn take(&mut self, count: usize) -> u32 {
        match self.starts.get_mut(count) {
            Some(starts) => starts.pop().unwrap_or(u32::MAX),
            None => u32::MAX,
        }
    }

    /// Remembers that so many cells from this one on may be used again, if there is memory for it.
    pub fn give(&mut self, start: u32, count: u16) {
        let count = usize::from(count);
        for _ in self.starts.len()..count + 1 {
            if self.starts.push(Vec::new(self.alloc)).is_err() {
                return;
            }
        }
        if let Some(starts) = self.starts.get_mut(count) {
            let _ = starts.push(start);
        }
    }
}
