//! The order in which breaches are told.
ghost use Rattle.std.specs.Prelude.{◌≡◌};
ghost use Rattle.std.specs.List.{Contains};
ghost use Rattle.gql_fields.specs.BreachOrder.{Lists, kind_place};

use crate::breach::{Breach, BreachKind};
use gql_base::Items;
use std::cmp::Ordering;

/// The breaches in order, each once.
pub fn sorted_once(found: Items<Breach>) -> Items<Breach>
    ensures { Lists (Contains found) result }
{
    let mut list = found.into_vec();
    list.sort_unstable();
    list.dedup();
    Items::from_vec(list)
}

fn kind_place(kind: BreachKind) -> u8
    ensures { result ≡ kind_place kind }
{
    match kind {
        BreachKind::Condition => 0,
        BreachKind::UnknownField => 1,
        BreachKind::Selection => 2,
        BreachKind::Directive => 3,
        BreachKind::UnknownArgument => 4,
        BreachKind::MissingArgument => 5,
        BreachKind::DoubledArgument => 6,
        BreachKind::Value => 7,
        BreachKind::UnknownFragment => 8,
        BreachKind::CircularFragment => 9,
        BreachKind::Variable => 10,
        BreachKind::Definition => 11,
        BreachKind::Conflict => 12,
    }
}

/// By place, kind, name and last by text.
impl Ord for Breach {
    ghost use Rattle.std.specs.Cmp.Rules.{comparing};
    ghost use Rattle.std.proofs.Common.{rules};
    ghost use Rattle.gql_fields.specs.BreachOrder.{breach_order, breach_total};

    ghost cmp = { breach_order };

    ghost total = { breach_total };

    ghost matches_partial_cmp = { Prim.search (comparing, rules) };

    ghost matches_eq = { Prim.search (comparing, rules) depth 12 };

    fn cmp(&self, other: &Breach) -> Ordering {
        self.pos
            .cmp(&other.pos)
            .then(kind_place(self.kind).cmp(&kind_place(other.kind)))
            .then(self.name.cmp(&other.name))
            .then(self.text.cmp(&other.text))
    }
}

impl PartialOrd for Breach {
    ghost use Rattle.std.specs.Cmp.{partial_order_from_own_ties};
    ghost use Rattle.std.specs.Cmp.Rules.{comparing};
    ghost use Rattle.std.proofs.Common.{rules};
    ghost use Rattle.std.specs.Ordering.{as_partial_cmp};
    ghost use Rattle.gql_fields.specs.BreachOrder.{breach_order};

    ghost partial_cmp = { as_partial_cmp breach_order };

    ghost laws = { partial_order_from_own_ties (Prim.search (
      comparing,
      rules,
    ) depth 12) (Prim.search (comparing, rules) depth 12) };

    fn partial_cmp(&self, other: &Breach) -> Option<Ordering> {
        Some(self.cmp(other))
    }
}

/// Breaches are equal where neither comes before the other.
impl PartialEq for Breach {
    ghost use Rattle.std.specs.Cmp.{partial_equiv_from_equiv};
    ghost use Rattle.std.proofs.lemmas.Cmp.{eq_by_cmp_equiv};
    ghost use Rattle.std.specs.Ordering.{eq_by_cmp};
    ghost use Rattle.gql_fields.specs.BreachOrder.{breach_order, breach_total};

    ghost eq = { eq_by_cmp breach_order };

    ghost laws = { partial_equiv_from_equiv (eq_by_cmp_equiv breach_total) };

    fn eq(&self, other: &Breach) -> bool {
        self.cmp(other) == Ordering::Equal
    }
}

impl Eq for Breach {
    ghost use Rattle.std.proofs.lemmas.Cmp.{eq_by_cmp_equiv};
    ghost use Rattle.gql_fields.specs.BreachOrder.{breach_total};

    ghost laws = { eq_by_cmp_equiv breach_total };
}
