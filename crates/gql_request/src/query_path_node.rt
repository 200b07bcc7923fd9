ghost use Rattle.std.specs.Prelude.{◌≡◌, ◌<◌, ◌++◌, IsSome, Some, IfOk, OnErr, OnOk, length, map};
ghost use Rattle.std.specs.Prelude.{codes};
ghost use Rattle.std.specs.Prelude.{string_bytes};
ghost use Rattle.gql_base.specs.PathSegment.{path_text, segment_text};
ghost use Rattle.gql_base.specs.Separated.{before};
ghost use Rattle.gql_request.specs.Path.{IsFront, last_field};

use gql_base::{Items, Made, PathSegment, Text};
use itoa::Buffer;
use std::alloc::Global;

/// The room that the text of a path takes at first.
const ROOM: usize = 24;

/// A place of a response by its path, which has at least one segment (GraphQL, October 2021,
/// section 7.1.2).
#[derive(Clone, Copy, Debug)]
pub struct QueryPathNode<'a> {
    pub segments: &'a [PathSegment],
    pub ghost not_empty: { 0 < length segments.now },
}

impl<'a> QueryPathNode<'a> {
    ghost use Rattle.gql_request.specs.Parents.{path_behind};

    /// The key of the innermost field on the path.
    pub fn field_name(&self) -> &'a str
        requires { IsSome (last_field self.now.segments.now) }
        ensures { last_field self.now.segments.now ≡ Some result.now }
    {
        let mut last = None;
        for segment in self.segments {
            if let PathSegment::Field(name) = segment {
                last = Some(name.as_str());
            }
        }
        last.unwrap()
    }

    /// The places that this one lies in: the proper prefixes of its path, longest first.
    pub fn parents(&self) -> Parents<'a>
        ensures { path_behind result ≡ self.now.segments.now }
    {
        Parents { current: *self }
    }

    /// The texts of the segments, in their order.
    pub fn to_string_vec(&self, alloc: Global) -> Made<Items<Text>>
        ensures { IfOk result (λ texts. texts ≡ map segment_text self.now.segments.now) }
    {
        let mut texts = Items::new(alloc);
        for segment in self.segments {
            texts.push(text_of(alloc, segment)?)?;
        }
        Ok(texts)
    }

    /// The texts of the segments, joined by dots.
    pub fn text(&self, alloc: Global) -> Made<Text>
        ensures { IfOk result (λ text. text ≡ path_text self.now.segments.now) }
    {
        let mut out = String::with_capacity(alloc, ROOM)?;
        self.push_text(&mut out)?;
        Text::from_string(out)
    }

    /// Appends the texts of the segments, joined by dots. Where memory runs out, some of that may
    /// stand behind the text already.
    #[tactic(auto, using(gql_base::proofs::SeparatedLemmas::separated_more))]
    pub fn push_text(&self, out: &mut String) -> Made<()>
        ensures ok { OnOk result (string_bytes out.new ≡ string_bytes out.old
            ++ path_text self.now.segments.now) }
        ensures front { IsFront (string_bytes out.old) (string_bytes out.new) }
    {
        for (place, segment) in self.segments.iter().enumerate() {
            push_dot(out, place)?;
            push_segment(out, segment)?;
        }
        Ok(())
    }
}

fn text_of(alloc: Global, segment: &PathSegment) -> Made<Text>
    ensures { IfOk result (λ text. text ≡ segment_text segment.now) }
{
    let mut out = String::new(alloc);
    write!(out, "{segment}")?;
    Text::from_string(out)
}

/// Appends the text of a segment.
fn push_segment(out: &mut String, segment: &PathSegment) -> Made<()>
    ensures ok { OnOk result (string_bytes out.new ≡ string_bytes out.old
        ++ segment_text segment.now) }
    ensures err { OnErr result (string_bytes out.new ≡ string_bytes out.old) }
{
    match segment {
        PathSegment::Field(name) => out.push_str(name.as_str()),
        PathSegment::Index(index) => out.push_str(Buffer::new().format(*index)),
    }
}

/// Appends a dot, but before the segment at place 0 nothing.
fn push_dot(out: &mut String, place: usize) -> Made<()>
    ensures ok { OnOk result (string_bytes out.new ≡ string_bytes out.old
        ++ before (codes ".") place) }
    ensures err { OnErr result (string_bytes out.new ≡ string_bytes out.old) }
{
    if place == 0 { Ok(()) } else { out.push('.') }
}

/// The places that a place lies in, longest path first.
#[derive(Clone, Copy, Debug)]
pub struct Parents<'a> {
    current: QueryPathNode<'a>,
}

impl<'a> Parents<'a> {
    ghost use Rattle.gql_request.specs.Parents.{path_behind};

    /// The place whose parent comes next.
    pub fn current(&self) -> QueryPathNode<'a>
        ensures { result.segments.now ≡ path_behind self.now }
    {
        self.current
    }
}

impl<'a> Iterator for Parents<'a> {
    type Item = QueryPathNode<'a>;

    ghost use Rattle.std.specs.Prelude.{option_map};
    ghost use Rattle.std.specs.Iterator.{YieldsFirst, item_count};
    ghost use Rattle.gql_request.specs.Path.{proper_prefixes, YieldsPrefix};
    ghost use Rattle.gql_request.specs.Parents.{path_behind};

    ghost next_gives = { λ before parent after.
        YieldsPrefix (proper_prefixes (path_behind before))
        (option_map (λ node. node.segments.now) parent) (proper_prefixes (path_behind after)) };

    ghost remaining = { item_count (λ parents. proper_prefixes (path_behind parents)) };

    #[tactic(auto, using(crate::proofs::PathLemmas::proper_prefixes_step, crate::proofs::PathLemmas::proper_prefixes_none))]
    fn next(&mut self) -> Option<QueryPathNode<'a>> {
        let length = self.current.segments.len();
        if length < 2 {
            return None;
        }
        self.current = QueryPathNode {
            segments: &self.current.segments[..length - 1],
        };
        Some(self.current)
    }
}
