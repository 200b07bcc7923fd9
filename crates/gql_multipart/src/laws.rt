//! Laws of this crate's definitions. Each is the contract of a function without parameters.
ghost use Rattle.std.specs.Prelude.{◌≡◌, ◌↔◌, ℕ, List, Some};
ghost use Rattle.gql_multipart.specs.Grammar.{IsRange};
ghost use Rattle.gql_multipart.specs.MediaRange.{MediaRange, range_of};

/// A text is read as a media range exactly where it spells that range.
pub fn ranges_are_spelled()
    ensures { (text : List ℕ) (range : MediaRange)
        → (range_of text ≡ Some range) ↔ IsRange text range }
{}
