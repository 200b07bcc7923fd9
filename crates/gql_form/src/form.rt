use crate::fault::Fault;
use crate::members::Members;
use serde_json::Value as Json;
use std::alloc::Global;

/// What every reader has at hand.
#[derive(Clone, Copy)]
pub(crate) struct Reader {
    pub(crate) alloc: Global,
    /// How many cells the bench has.
    pub(crate) cells: usize,
}

/// A type that is read from JSON.
pub(crate) trait Form: Drop {
    ghost use Rattle.std.specs.Prelude.{ℕ};
    ghost use Rattle.serde_json.specs.Data.{Data};
    ghost use Rattle.serde_json.specs.View.{view};
    ghost use Rattle.gql_base.specs.ReadJson.{Reading};
    ghost use Rattle.gql_form.specs.Faults.{IsRead};

    /// What is read, where a bench has so many cells.
    ghost reading: { ℕ → Data → Reading Self };

    fn read(reader: Reader, json: &Json) -> Result<Self, Fault>
        ensures { IsRead result (reading reader.cells (view json.now)) };
}

/// A type that is read from an object, after the object's member `name`.
pub(crate) trait Named: Drop {
    ghost use Rattle.std.specs.Prelude.{◌≡◌, ℕ, [], ◌∷◌, codes};
    ghost use Rattle.serde_json.specs.Data.{Data};
    ghost use Rattle.serde_json.specs.View.{view};
    ghost use Rattle.gql_base.specs.ReadJson.{Reading};
    ghost use Rattle.gql_form.specs.Faults.{IsRead};

    /// What is read behind the name, where a bench has so many cells.
    ghost behind: { ℕ → Data → Reading Self };

    fn read_behind(members: Members) -> Result<Self, Fault>
        requires { members.asked ≡ codes "name" ∷ [] }
        ensures { IsRead result (behind members.entry.reader.cells (view members.entry.json.now)) };
}
