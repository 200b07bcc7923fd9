//! Drafts of the parts of a document.
ghost use Rattle.std.specs.Prelude.{◌≡◌, OnOk};
ghost use Rattle.std.specs.Option.{option_or};
ghost use Rattle.gql_base.specs.Pairs.{names_of};
ghost use Rattle.gql_doc.specs.NameRules.{if_among};
ghost use Rattle.gql_doc.specs.Drafts.{plain as whole, added, with_fresh};

use gql_base::{Items, Made, Name, Pairs, Pos};

/// A part of a document as it was read, and the place of the first doubled name in it, where there
/// is one. Then the text spells no document, and the part lacks what stands under that name.
#[derive(Drop)]
pub struct Draft<T> {
    pub part: T,
    pub doubled: Option<Pos>,
}

/// A part in which no name is doubled.
pub fn plain<T>(part: T) -> Draft<T>
    ensures { result ≡ whole part }
{
    Draft {
        part,
        doubled: None,
    }
}

/// Adds one more to a list.
pub fn add_item<T: Drop>(list: &mut Draft<Items<T>>, item: Draft<T>) -> Made<()>
    ensures { OnOk result (list.new ≡ added list.old item) }
{
    let Draft { part, doubled } = item;
    list.doubled = list.doubled.or(doubled);
    list.part.push(part)
}

/// Adds a part under its name to those before, and notes the first doubled name. A part whose name
/// is taken is left out, and its name is doubled at the place.
pub fn add_named<T: Drop>(
    pairs: &mut Pairs<T>,
    doubled: &mut Option<Pos>,
    name: Name,
    pos: Pos,
    draft: Draft<T>,
) -> Made<()>
    ensures pairs { OnOk result (pairs.new ≡ with_fresh pairs.old name draft.part) }
    ensures doubled { OnOk result (doubled.new ≡ option_or doubled.old
        (option_or (if_among (names_of pairs.old) name pos) draft.doubled)) }
{
    if pairs.get(name.as_str()).is_some() {
        *doubled = doubled.or(Some(pos));
        return Ok(());
    }
    *doubled = doubled.or(draft.doubled);
    pairs.add_fresh(name, draft.part)
}
