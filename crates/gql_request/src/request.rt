ghost use Rattle.std.specs.Prelude.{◌≡◌, ◌↔◌, ℕ, List, IsTrue, IsSome, IfSome, IfOk, MatchResult};
ghost use Rattle.std.specs.Prelude.{OnErr, Ok, Err, Some, None};
ghost use Rattle.std.specs.Borrow.{sem};
ghost use Rattle.std.specs.Option.{option_copied};
ghost use Rattle.std.specs.Str.{chars};
ghost use Rattle.gql_doc.specs.Spelled.{GivesDocument, SpellsDocument, IsDocumentFault};
ghost use Rattle.gql_doc.specs.declared.document.ExecutableDocument.{ExecutableDocument};
ghost use Rattle.gql_doc.specs.declared.fault.ParseFault.{ParseFault};
ghost use Rattle.gql_request.specs.Data.{put_key};
ghost use Rattle.gql_request.specs.ParseRequestError.{Tells};
ghost use Rattle.gql_request.specs.Reading.{IsRead};
ghost use Rattle.gql_request.specs.Request.{request_for, set_document, with_document, GivesParsed};
ghost use Rattle.gql_request.specs.Request.{ends_parsed, request_of};

use crate::data::{Data, DataKey};
use crate::parse_request_error::ParseRequestError;
use crate::query_env::IntrospectionMode;
use crate::reading::{
    Fault, Reason, read_extensions, read_operation_name, read_query, read_variables,
};
use gql_base::{Copied, Made, Pairs, Text, Value, Variables};
use gql_doc::{ExecutableDocument, ParseFault, parse_query};
use std::alloc::{AllocError, Global};

/// A request (GraphQL, October 2021, section 6.1).
#[derive(Debug, Drop)]
pub struct Request {
    /// The text of the document.
    pub query: Text,
    /// The operation that is to be executed; without a name it is the only one.
    pub operation_name: Option<Text>,
    pub variables: Variables,
    /// The data of the request's own layer.
    pub query_data: Data,
    /// What the request tells beside its query.
    pub extensions: Pairs<Value>,
    pub introspection_mode: IntrospectionMode,
    /// The document, once it is set.
    document: Option<ExecutableDocument>,
}

impl Request {
    /// A request for a text, with nothing beside it.
    pub fn new(alloc: Global, query: &str) -> Made<Request>
        ensures { IfOk result (λ request. request ≡ request_for query.now) }
    {
        Ok(Request {
            query: Text::new(alloc, query)?,
            operation_name: None,
            variables: Variables::from_value(alloc, Value::Null),
            query_data: Data::new(alloc),
            extensions: Pairs::new(alloc),
            introspection_mode: IntrospectionMode::Enabled,
            document: None,
        })
    }

    /// This request for the operation of a name.
    pub fn operation_name(self, alloc: Global, name: &str) -> Made<Request>
        ensures { IfOk result (λ request. request
            ≡ record self { operation_name = Some name.now }) }
    {
        Ok(Request {
            operation_name: Some(Text::new(alloc, name)?),
            ..self
        })
    }

    /// This request with these variables in place of its own.
    pub fn variables(self, variables: Variables) -> Request
        ensures { result ≡ record self { variables = variables } }
    {
        Request { variables, ..self }
    }

    /// This request with a value under a key of its layer of data.
    pub fn data(mut self, key: DataKey, value: Value) -> Made<Request>
        ensures { IfOk result
            (λ request. request ≡ record self { query_data = put_key self.query_data key.0 value }) }
    {
        self.query_data.insert(key, value)?;
        Ok(self)
    }

    /// This request, to which fields of the schema have no values.
    pub fn disable_introspection(self) -> Request
        ensures { result ≡ record self { introspection_mode = IntrospectionMode.Disabled } }
    {
        Request {
            introspection_mode: IntrospectionMode::Disabled,
            ..self
        }
    }

    /// This request, to which fields of the schema alone have values.
    pub fn only_introspection(self) -> Request
        ensures { result
            ≡ record self { introspection_mode = IntrospectionMode.IntrospectionOnly } }
    {
        Request {
            introspection_mode: IntrospectionMode::IntrospectionOnly,
            ..self
        }
    }

    /// The document that is set. Without one it reads the query, and sets and answers the document;
    /// the first fault of the query changes nothing.
    pub fn parsed_query(&mut self, alloc: Global) -> Made<Result<&ExecutableDocument, ParseFault>>
        ensures* after { sem 𝓛 (ends_parsed self.entry result) }
        ensures given { IfOk result (λ outcome. MatchResult outcome
            (λ document. GivesParsed (set_document self.old) self.old.query (Ok document.now))
            (λ fault. GivesParsed (set_document self.old) self.old.query (Err fault))) }
    {
        match self.read_document(alloc)? {
            Ok(()) => Ok(Ok(self.document.as_ref().unwrap())),
            Err(fault) => Ok(Err(fault)),
        }
    }

    /// Sets the document of the query, unless one is set.
    fn read_document(&mut self, alloc: Global) -> Made<Result<(), ParseFault>>
        ensures read { IfOk result (λ outcome. MatchResult outcome
            (λ _. IfSome (set_document self.new) (λ document.
            (self.new ≡ with_document self.old document)
            × GivesParsed (set_document self.old) self.old.query (Ok document)))
            (λ fault. (self.new ≡ self.old)
            × GivesParsed (set_document self.old) self.old.query (Err fault))) }
        ensures there { IfOk result (λ outcome. IfOk outcome (λ _. IsSome (set_document self.new))) }
        ensures err { OnErr result (self.new ≡ self.old) }
    {
        if self.document.is_some() {
            return Ok(Ok(()));
        }
        match parse_query(alloc, self.query.as_str())? {
            Ok(document) => {
                self.document = Some(document);
                Ok(Ok(()))
            }
            Err(fault) => Ok(Err(fault)),
        }
    }

    /// Sets the document, in place of one that is set.
    pub fn set_parsed_query(&mut self, doc: ExecutableDocument)
        ensures { self.new ≡ with_document self.old doc }
    {
        self.document = Some(doc);
    }

    /// The document that is set, if any.
    pub fn document(&self) -> Option<&ExecutableDocument>
        ensures { option_copied result ≡ set_document self.now }
    {
        self.document.as_ref()
    }

    /// True exactly where a document is set.
    pub fn has_document(&self) -> bool
        ensures { IsTrue result ↔ IsSome (set_document self.now) }
    {
        self.document.is_some()
    }

    /// The request that a value holds, or the first reason why it holds none.
    pub fn from_json(alloc: Global, value: &Value) -> Made<Result<Request, ParseRequestError>>
        ensures { IfOk result (λ read. Tells read (request_of value.now)) }
    {
        match read_request(alloc, value) {
            Ok(request) => Ok(Ok(request)),
            Err(Fault::Refused(reason)) => {
                Ok(Err(ParseRequestError::InvalidRequest(reason.text())))
            }
            Err(Fault::NoMemory) => Err(AllocError),
        }
    }
}

/// Reads a request.
pub(crate) fn read_request(alloc: Global, value: &Value) -> Result<Request, Fault>
    ensures { IsRead result (request_of value.now) }
{
    let Value::Object(members) = value else {
        return Err(Fault::Refused(Reason::NoObject));
    };
    let query = read_query(alloc, members.get("query"))?;
    let operation_name = read_operation_name(alloc, members.get("operationName"))?;
    let variables = read_variables(alloc, members.get("variables"))?;
    let extensions = read_extensions(alloc, members.get("extensions"))?;
    Ok(Request {
        query,
        operation_name,
        variables,
        query_data: Data::new(alloc),
        extensions,
        introspection_mode: IntrospectionMode::Enabled,
        document: None,
    })
}

impl Copied for Request {
    fn try_clone(&self, alloc: Global) -> Made<Request> {
        Ok(Request {
            query: self.query.try_clone(alloc)?,
            operation_name: self.operation_name.try_clone(alloc)?,
            variables: self.variables.try_clone(alloc)?,
            query_data: self.query_data.try_clone(alloc)?,
            extensions: self.extensions.try_clone(alloc)?,
            introspection_mode: self.introspection_mode,
            document: self.document.try_clone(alloc)?,
        })
    }
}
