//! The directives `@skip` and `@include` (sections 3.13.1 and 3.13.2).
ghost use Rattle.std.specs.Prelude.{◌≡◌, ◌||◌};
ghost use Rattle.gql_select.specs.Kept.{is_include, is_skip};

use gql_doc::Directive;

/// True exactly where the directive is `@skip`.
pub fn is_skip_directive(directive: &Directive) -> bool
    ensures { result ≡ is_skip directive.now }
{
    directive.name.node.as_str() == "skip"
}

/// True exactly where the directive is `@include`.
pub fn is_include_directive(directive: &Directive) -> bool
    ensures { result ≡ is_include directive.now }
{
    directive.name.node.as_str() == "include"
}

/// True exactly where the directive is `@skip` or `@include`.
pub fn is_condition(directive: &Directive) -> bool
    ensures { result ≡ (is_skip directive.now || is_include directive.now) }
{
    is_skip_directive(directive) || is_include_directive(directive)
}
