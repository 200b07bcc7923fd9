ghost use Rattle.std.specs.Prelude.{◌≡◌, ◌++◌, OnOk, string_bytes};
ghost use Rattle.gql_base.specs.ErrorJson.{list_json};

use crate::json::push_comma;
use crate::made::Made;

/// What has a JSON text.
pub trait JsonText {
    ghost use Rattle.std.specs.Prelude.{ℕ, List};

    /// The text.
    ghost text: { Self → List ℕ };

    /// Appends the text.
    fn push_text(&self, out: &mut String) -> Made<()>
        ensures { OnOk result (string_bytes out.new ≡ string_bytes out.old ++ text self.now) };
}

/// Appends the JSON text of a list.
#[tactic(auto, using(crate::proofs::SeparatedLemmas::separated_more))]
pub fn push_list<T: JsonText>(out: &mut String, items: &[T]) -> Made<()>
    ensures { OnOk result (string_bytes out.new ≡ string_bytes out.old
        ++ list_json T.text items.now) }
{
    out.push('[')?;
    for (place, item) in items.iter().enumerate() {
        push_comma(out, place)?;
        item.push_text(out)?;
    }
    out.push(']')
}
