//! The order of writing: what a part of a script leaves.

ghost use Rattle.std.specs.Prelude.{◌≡◌, ℕ, List, ◌∷◌, ◌++◌, Option, Contains};
ghost use Rattle.dcsp_outside.specs.Outside.{IsPrefixOf};
ghost use Rattle.dcsp_script.specs.Scripts.{Write, Create, created_by, file_after, put_by};
ghost use Rattle.dcsp_script.specs.Texts.{LeavesAlone, OnlyAppends, HoldsPartOf, appended_by};
ghost use Rattle.dcsp_script.specs.Ways.{IsPartOf};

/// What a part of a script leaves, wherever the script stopped: `out` gained a first part of the
/// script's text; a name that the script leaves alone is as before; and a name that is created
/// once, and then only appended to, holds a first part of its text from its creation on.
pub fn parts_in_order()
    ensures text { (part script : List Write) → IsPartOf part script
        → IsPrefixOf (put_by part) (put_by script) }
    ensures others { (part script : List Write) (name : List ℕ) (file : Option (List ℕ))
        → IsPartOf part script → LeavesAlone script name → file_after part name file ≡ file }
    ensures log { (part before later : List Write) (name : List ℕ) (file : Option (List ℕ))
        → LeavesAlone before name → OnlyAppends later name → IsPartOf part (before ++ Create name ∷ later)
        → HoldsPartOf name (appended_by later name) (Contains (created_by part) name) file (file_after part name file) }
{}
