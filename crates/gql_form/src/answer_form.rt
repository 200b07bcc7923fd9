use crate::delay::{Delay, read_delay};
use crate::fault::Fault;
use crate::form::{Form, Reader};
use crate::members::Members;
use crate::rule_form::{RuleForm, read_rule};
use gql_base::{Items, Text};
use gql_request::HeaderOp;
use serde_json::Value as Json;

/// How a field is answered, and when.
#[derive(Drop)]
pub struct AnswerForm {
    pub delay: Delay,
    /// The messages of errors beside the answer.
    pub added: Items<Text>,
    pub headers: Items<HeaderOp>,
    pub rule: RuleForm,
}

impl Form for AnswerForm {
    ghost use Rattle.gql_form.specs.AnswerForm.{answer_of};

    ghost reading = { answer_of };

    fn read(reader: Reader, json: &Json) -> Result<AnswerForm, Fault> {
        let mut members = Members::of(reader, json);
        let delay = read_delay(&mut members)?;
        let added = members.listed("added")?;
        let headers = members.listed("headers")?;
        let rule = read_rule(&mut members)?;
        members.no_others(AnswerForm {
            delay,
            added,
            headers,
            rule,
        })
    }
}
