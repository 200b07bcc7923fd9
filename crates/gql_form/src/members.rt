//! The members of an object, where what is asked of them says which ones it may have.
ghost use Rattle.std.specs.Prelude.{◌≡◌, [], ◌∷◌, ◌++◌, OnOk, map};
ghost use Rattle.serde_json.specs.View.{view};
ghost use Rattle.gql_form.specs.Asked.{asked_after};
ghost use Rattle.gql_form.specs.Faults.{IsRead, IsReadAs};
ghost use Rattle.gql_form.specs.Read.{member, optional, listed, only_then, sole};

use crate::fault::Fault;
use crate::form::{Form, Reader};
use crate::kit;
use gql_base::{Items, Made};
use serde_json::Value as Json;
use std::alloc::Global;
use std::marker::Model;

/// The names that were asked. Contracts see them as a list of texts.
#[derive(Drop)]
pub(crate) struct Asked {
    names: Vec<&'static str>,
}

impl Model for Asked {
    ghost use Rattle.std.specs.Prelude.{List, ℕ, map};
    ghost use Rattle.std.specs.Coded.{coded_list, coded_ℕ};

    ghost Value = { List (List ℕ) };

    ghost coded = { coded_list (coded_list coded_ℕ) };

    ghost view = { λ asked. map (λ n. n.now) asked.names.items };
}

impl Asked {
    fn none(alloc: Global) -> Asked
        ensures { result ≡ [] }
    {
        Asked {
            names: Vec::new(alloc),
        }
    }

    fn add(&mut self, name: &'static str) -> Made<()>
        ensures { OnOk result (self.new ≡ self.old ++ name.now ∷ []) }
    {
        self.names.push(name)?;
        Ok(())
    }

    fn add_all(&mut self, names: &[&'static str]) -> Made<()>
        ensures { OnOk result (self.new ≡ asked_after self.old (map (λ n. n.now) names.now)) }
    {
        for name in names {
            self.add(*name)?;
        }
        Ok(())
    }

    fn as_slice(&self) -> &[&'static str]
        ensures { map (λ n. n.now) result.now ≡ self.now }
    {
        self.names.as_slice()
    }
}

/// An object, with the names of its members that were asked.
#[derive(Drop)]
pub(crate) struct Members<'a> {
    pub(crate) reader: Reader,
    pub(crate) json: &'a Json,
    pub(crate) asked: Asked,
}

impl<'a> Members<'a> {
    /// Those of this object, of which none was asked.
    pub(crate) fn of(reader: Reader, json: &'a Json) -> Members<'a>
        ensures reader { result.reader ≡ reader }
        ensures json { result.json ≡ json.entry }
        ensures asked { result.asked ≡ [] }
    {
        Members {
            reader,
            json,
            asked: Asked::none(reader.alloc),
        }
    }

    /// The member of this name, which has to be there.
    pub(crate) fn needed<T: Form>(&mut self, name: &'static str) -> Result<T, Fault>
        ensures read { IsRead result
            (member name.now (T.reading self.old.reader.cells) (view self.old.json.now)) }
        ensures asked { OnOk result (self.new.asked ≡ self.old.asked ++ name.now ∷ []) }
        ensures reader { self.new.reader ≡ self.old.reader }
        ensures json { self.new.json ≡ self.old.json }
    {
        self.asked.add(name)?;
        kit::member(self.reader, self.json, name)
    }

    /// The member of this name, if there is one.
    pub(crate) fn optional<T: Form>(&mut self, name: &'static str) -> Result<Option<T>, Fault>
        ensures read { IsRead result
            (optional name.now (T.reading self.old.reader.cells) (view self.old.json.now)) }
        ensures asked { OnOk result (self.new.asked ≡ self.old.asked ++ name.now ∷ []) }
        ensures reader { self.new.reader ≡ self.old.reader }
        ensures json { self.new.json ≡ self.old.json }
    {
        self.asked.add(name)?;
        kit::optional(self.reader, self.json, name)
    }

    /// The list that is the member of this name, or the empty list without one.
    pub(crate) fn listed<T: Form>(&mut self, name: &'static str) -> Result<Items<T>, Fault>
        ensures read { IsRead result
            (listed name.now (T.reading self.old.reader.cells) (view self.old.json.now)) }
        ensures asked { OnOk result (self.new.asked ≡ self.old.asked ++ name.now ∷ []) }
        ensures reader { self.new.reader ≡ self.old.reader }
        ensures json { self.new.json ≡ self.old.json }
    {
        self.asked.add(name)?;
        kit::listed(self.reader, self.json, name)
    }

    /// The one of these names that the object has.
    pub(crate) fn sole(&mut self, names: &[&'static str]) -> Result<&'static str, Fault>
        ensures read { IsReadAs (λ n. n.now) result
            (sole (map (λ n. n.now) names.now) (view self.old.json.now)) }
        ensures asked { OnOk result
            (self.new.asked ≡ asked_after self.old.asked (map (λ n. n.now) names.now)) }
        ensures reader { self.new.reader ≡ self.old.reader }
        ensures json { self.new.json ≡ self.old.json }
    {
        self.asked.add_all(names)?;
        kit::sole(self.reader, self.json, names)
    }

    /// The member of a name that was asked, which has to be there.
    pub(crate) fn under<T: Form>(&self, name: &str) -> Result<T, Fault>
        ensures { IsRead result
            (member name.now (T.reading self.now.reader.cells) (view self.now.json.now)) }
    {
        kit::member(self.reader, self.json, name)
    }

    /// A value that was read, where the object has no member but those that were asked.
    pub(crate) fn no_others<T: Drop>(self, value: T) -> Result<T, Fault>
        ensures { IsRead result (only_then self.entry.asked (view self.entry.json.now) value) }
    {
        kit::only(self.reader, self.json, self.asked.as_slice())?;
        Ok(value)
    }
}
