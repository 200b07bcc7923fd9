//! The rules by which fields are answered.
ghost use Rattle.std.specs.Prelude.{◌≡◌, OnOk};
ghost use Rattle.serde_json.specs.View.{view};
ghost use Rattle.gql_form.specs.Asked.{asked_after};
ghost use Rattle.gql_form.specs.Faults.{IsRead};
ghost use Rattle.gql_form.specs.RuleForm.{rule_under, asking_rule_of, cell_rule_of, rule_of};
ghost use Rattle.gql_form.specs.RuleForm.{rule_words};

use crate::answered::Answered;
use crate::fault::Fault;
use crate::form::{Form, Reader};
use crate::kit::{bad, bad_member};
use crate::members::Members;
use crate::path::Path;
use gql_base::{Items, Name, Text};
use serde_json::Value as Json;

/// The number of a cell, below the number of the bench's cells.
#[derive(Clone, Copy, PartialEq, Eq)]
pub struct Cell {
    pub place: u64,
}

/// How a field is answered.
#[derive(Drop)]
pub enum RuleForm {
    /// By this.
    Const(Answered),
    /// By no value.
    None,
    /// By an error with this message.
    Fail(Text),
    /// By the parent's member of this name.
    Member(Name),
    /// By the argument of this name.
    Arg(Name),
    /// By the sum of the arguments at these paths.
    Sum(Items<Path>),
    /// By a cell.
    Read(Cell),
    /// By a cell, to which a root of a mutation adds first.
    Bump(Cell),
}

impl Form for Cell {
    ghost use Rattle.gql_form.specs.RuleForm.{cell_of};

    ghost reading = { cell_of };

    fn read(reader: Reader, json: &Json) -> Result<Cell, Fault> {
        let place = u64::read(reader, json)?;
        if place < reader.cells as u64 {
            Ok(Cell { place })
        } else {
            bad(reader)
        }
    }
}

/// The one rule among the members of an answer.
pub(crate) fn read_rule(members: &mut Members) -> Result<RuleForm, Fault>
    ensures read { IsRead result
        (rule_of members.old.reader.cells (view members.old.json.now)) }
    ensures asked { OnOk result (members.new.asked ≡ asked_after members.old.asked rule_words) }
    ensures reader { members.new.reader ≡ members.old.reader }
    ensures json { members.new.json ≡ members.old.json }
{
    let word = members.sole(&[
        "const", "none", "fail", "member", "arg", "sum", "read", "bump",
    ])?;
    read_rule_under(members, word)
}

/// The rule under a word.
fn read_rule_under(members: &Members, word: &str) -> Result<RuleForm, Fault>
    ensures { IsRead result
        (rule_under members.now.reader.cells word.now (view members.now.json.now)) }
{
    match word {
        "const" => Ok(RuleForm::Const(members.under("const")?)),
        "none" => {
            if members.under("none")? {
                Ok(RuleForm::None)
            } else {
                bad_member(members.reader, "none")
            }
        }
        "fail" => Ok(RuleForm::Fail(members.under("fail")?)),
        _ => read_asking_rule(members, word),
    }
}

/// A rule that reads the parent or the arguments.
fn read_asking_rule(members: &Members, word: &str) -> Result<RuleForm, Fault>
    ensures { IsRead result
        (asking_rule_of members.now.reader.cells word.now (view members.now.json.now)) }
{
    match word {
        "member" => Ok(RuleForm::Member(members.under("member")?)),
        "arg" => Ok(RuleForm::Arg(members.under("arg")?)),
        "sum" => Ok(RuleForm::Sum(members.under("sum")?)),
        _ => read_cell_rule(members, word),
    }
}

/// A rule that reads a cell.
fn read_cell_rule(members: &Members, word: &str) -> Result<RuleForm, Fault>
    ensures { IsRead result
        (cell_rule_of members.now.reader.cells word.now (view members.now.json.now)) }
{
    match word {
        "read" => Ok(RuleForm::Read(members.under("read")?)),
        _ => Ok(RuleForm::Bump(members.under("bump")?)),
    }
}
