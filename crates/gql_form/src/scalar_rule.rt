//! The rules of scalars.
ghost use Rattle.serde_json.specs.View.{view};
ghost use Rattle.gql_form.specs.Faults.{IsRead};
ghost use Rattle.gql_form.specs.ScalarRule.{listed_texts, object_rule_of, word_rule_of};

use crate::fault::Fault;
use crate::form::{Form, Reader};
use crate::kit::{bad, long, nth};
use crate::members::Members;
use gql_base::{Items, Text};
use gql_schema::{NameSet, ScalarRule};
use serde_json::Value as Json;

/// The two ends of a range.
#[derive(Clone, Copy, PartialEq, Eq)]
pub(crate) struct Between {
    low: i64,
    high: i64,
}

impl Form for Between {
    ghost use Rattle.gql_form.specs.ScalarRule.{between_of};

    ghost reading = { λ cells. between_of };

    fn read(reader: Reader, json: &Json) -> Result<Between, Fault> {
        long(reader, json, 2)?;
        let low = nth(reader, json, 0)?;
        let high = nth(reader, json, 1)?;
        Ok(Between { low, high })
    }
}

impl Form for ScalarRule {
    ghost use Rattle.gql_form.specs.ScalarRule.{scalar_rule_of};

    ghost reading = { λ cells. scalar_rule_of };

    fn read(reader: Reader, json: &Json) -> Result<ScalarRule, Fault> {
        match json.as_str() {
            Some(word) => read_word(reader, word),
            None => read_object(reader, json),
        }
    }
}

/// A rule that is a word.
fn read_word(reader: Reader, word: &str) -> Result<ScalarRule, Fault>
    ensures { IsRead result (word_rule_of word.now) }
{
    match word {
        "any" => Ok(ScalarRule::Any),
        "bool" => Ok(ScalarRule::Bool),
        "int" => Ok(ScalarRule::Int),
        "text" => Ok(ScalarRule::Text),
        "id" => Ok(ScalarRule::Id),
        _ => bad(reader),
    }
}

/// A rule that is an object of one member.
fn read_object(reader: Reader, json: &Json) -> Result<ScalarRule, Fault>
    ensures { IsRead result (object_rule_of (view json.now)) }
{
    let mut members = Members::of(reader, json);
    let rule = match members.sole(&["between", "oneOf"])? {
        "between" => {
            let ends: Between = members.under("between")?;
            ScalarRule::IntBetween(ends.low, ends.high)
        }
        _ => ScalarRule::OneOf(read_texts(&members)?),
    };
    members.no_others(rule)
}

/// The texts that a scalar takes, each once.
fn read_texts(members: &Members) -> Result<NameSet, Fault>
    ensures { IsRead result (listed_texts (view members.now.json.now)) }
{
    let texts: Items<Text> = members.under("oneOf")?;
    let set = NameSet::of_texts(members.reader.alloc, texts)?;
    Ok(set)
}
