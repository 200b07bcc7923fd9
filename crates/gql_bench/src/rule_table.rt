//! The rules of a bench's resolvers and the events of its sources, by their numbers. What was read
//! is moved.
ghost use Rattle.std.specs.Prelude.{◌≡◌, ◌++◌, map, IfOk, OnOk};
ghost use Rattle.gql_base.specs.Pairs.{values_of};
ghost use Rattle.gql_bench.specs.Rule.{entity_rules, field_events, field_rule};

use crate::rule::{Rule, entity_rule, rule_from};
use gql_base::{Items, Made, Pairs};
use gql_form::{EventForm, FieldForm, SubscriptionFieldForm, TypeForm};
use std::alloc::Global;

/// The rules of resolvers and the events of sources.
#[derive(Drop)]
pub(crate) struct RuleTable {
    pub(crate) rules: Items<Rule>,
    pub(crate) sources: Items<Items<EventForm>>,
}

impl RuleTable {
    ghost use Rattle.std.specs.Prelude.{◌≡◌, ◌++◌, IfOk, OnOk};
    ghost use Rattle.gql_bench.specs.Rule.{entity_rules, rules_in, rules_of};
    ghost use Rattle.gql_bench.specs.Rule.{sources_in, sources_of};

    /// Those of these types, in the order of the bench. The entity rule stands after all others,
    /// where it is set.
    pub(crate) fn of(alloc: Global, types: Items<TypeForm>, entities: bool) -> Made<RuleTable>
        ensures rules { IfOk result
            (λ table. table.rules ≡ rules_of types ++ entity_rules entities) }
        ensures sources { IfOk result (λ table. table.sources ≡ sources_of types) }
    {
        let mut table = RuleTable::of_types(alloc, types)?;
        add_entity_rule(alloc, &mut table.rules, entities)?;
        Ok(table)
    }

    /// Those of these types alone.
    fn of_types(alloc: Global, types: Items<TypeForm>) -> Made<RuleTable>
        ensures rules { IfOk result (λ table. table.rules ≡ rules_of types) }
        ensures sources { IfOk result (λ table. table.sources ≡ sources_of types) }
    {
        let mut table = RuleTable {
            rules: Items::new(alloc),
            sources: Items::new(alloc),
        };
        for form in types.into_vec() {
            table.add(alloc, form)?;
        }
        Ok(table)
    }

    /// Adds those of a type.
    fn add(&mut self, alloc: Global, form: TypeForm) -> Made<()>
        ensures rules { OnOk result (self.new.rules ≡ self.old.rules ++ rules_in form) }
        ensures sources { OnOk result (self.new.sources ≡ self.old.sources ++ sources_in form) }
    {
        match form {
            TypeForm::Object(object) => add_rules(alloc, &mut self.rules, object.fields),
            TypeForm::Subscription(subscription) => {
                add_sources(&mut self.sources, subscription.fields)
            }
            TypeForm::Interface(_)
            | TypeForm::Union(_)
            | TypeForm::Enum(_)
            | TypeForm::Input(_)
            | TypeForm::Scalar(_) => Ok(()),
        }
    }
}

/// Adds the rules of the fields of an object.
fn add_rules(alloc: Global, rules: &mut Items<Rule>, fields: Pairs<FieldForm>) -> Made<()>
    ensures { OnOk result (rules.new ≡ rules.old ++ map field_rule (values_of fields)) }
{
    let (names, fields) = fields.into_parts();
    drop(names);
    for field in fields {
        rules.push(rule_for(alloc, field)?)?;
    }
    Ok(())
}

/// Adds the entity rule, where it is set.
fn add_entity_rule(alloc: Global, rules: &mut Items<Rule>, set: bool) -> Made<()>
    ensures { OnOk result (rules.new ≡ rules.old ++ entity_rules set) }
{
    if set {
        rules.push(entity_rule(alloc))
    } else {
        Ok(())
    }
}

/// The rule of a field's resolver.
fn rule_for(alloc: Global, field: FieldForm) -> Made<Rule>
    ensures { IfOk result (λ made. made ≡ field_rule field) }
{
    let FieldForm { ty, args, answer } = field;
    drop(ty);
    drop(args);
    rule_from(alloc, answer)
}

/// Adds the events of the fields of a subscription.
fn add_sources(
    sources: &mut Items<Items<EventForm>>,
    fields: Pairs<SubscriptionFieldForm>,
) -> Made<()>
    ensures { OnOk result (sources.new ≡ sources.old ++ map field_events (values_of fields)) }
{
    let (names, fields) = fields.into_parts();
    drop(names);
    for field in fields {
        sources.push(events_for(field))?;
    }
    Ok(())
}

/// The events of a field of a subscription.
fn events_for(field: SubscriptionFieldForm) -> Items<EventForm>
    ensures { result ≡ field_events field }
{
    let SubscriptionFieldForm { ty, args, events } = field;
    drop(ty);
    drop(args);
    events
}
