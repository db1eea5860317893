//! What a folder has handed over. It takes no memory: only clauses read it.

ghost use Rattle.std.specs.Prelude.{◌≡◌, List, [], ◌∷◌, ◌++◌};
ghost use Rattle.std.specs.Borrow.{ftrue};
ghost use Rattle.dcsp_outside.specs.Handed.{Handed};

use crate::folder::{Fetched, FolderError, Piece};
use std::marker::Model;

/// How much of a name's bytes a fetch handed over.
#[derive(Clone, Copy)]
enum Portion {
    /// All of them.
    All,
    /// None, since there are more than `most`.
    More { most: u64 },
    /// As many from a place on as were asked for.
    Part { from: u64 },
    /// Those from a place on to the end.
    End { from: u64 },
}

/// The answers of fetches that went through, in their order. They stand in clauses alone, and nothing is kept.
#[derive(Drop)]
pub struct Transcript {
    pub ghost answers: { List Handed },
}

impl Model for Transcript {
    ghost also_owns = { λ _. ftrue };
}

impl Transcript {
    ghost use Rattle.dcsp_outside.specs.Handing.{handed_of};
    ghost use Rattle.dcsp_outside.specs.Outside.{handed_by, handed_piece};

    /// No fetch was answered.
    pub fn new() -> Transcript
        ensures { result.answers ≡ [] }
    {
        Transcript {}
    }

    /// Notes what a fetch of a name found, which added these bytes.
    pub fn fetched(
        &mut self,
        name: &str,
        most: u64,
        bytes: &[u8],
        found: Result<Fetched, FolderError>,
    )
        ensures { self.new.answers ≡ self.old.answers ++ handed_by name.now most bytes.now found }
    {
        match found {
            Ok(Fetched::Whole) => self.note(name.as_bytes(), bytes, &Portion::All),
            Ok(Fetched::Long) => self.note(name.as_bytes(), bytes, &Portion::More { most }),
            Err(_) => {}
        }
    }

    /// Notes what a fetch of a piece of a name found, which added these bytes.
    pub fn fetched_piece(
        &mut self,
        name: &str,
        from: u64,
        bytes: &[u8],
        found: Result<Piece, FolderError>,
    )
        ensures { self.new.answers ≡ self.old.answers ++ handed_piece name.now from bytes.now found }
    {
        match found {
            Ok(Piece::Part) => self.note(name.as_bytes(), bytes, &Portion::Part { from }),
            Ok(Piece::End) => self.note(name.as_bytes(), bytes, &Portion::End { from }),
            Err(_) => {}
        }
    }

    /// Notes an answer about a name, which handed over these bytes.
    fn note(&mut self, _name: &[u8], _bytes: &[u8], _portion: &Portion)
        ensures { self.new.answers ≡ self.old.answers ++ handed_of _name.now _bytes.now _portion.now ∷ [] }
    {}
}
