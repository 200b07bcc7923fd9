ghost use Rattle.std.specs.Prelude.{◌≡◌, ◌<◌, ◌≤◌, None, Some, MatchOption, IfSome, length};
ghost use Rattle.std.specs.List.{prefix_len, suffix_len};
ghost use Rattle.std.specs.Option.{option_copied};
ghost use Rattle.std.specs.Str.{str_eq_ignore_ascii_case};
ghost use Rattle.gql_multipart.specs.Token.{behind, is_blank, is_token_character, token_at, trimmed};
ghost use Rattle.gql_multipart.specs.Token.{unspaced};

/// True exactly for a character of a token.
#[tactic(auto, unfolding(crate::specs::Token::is_token_character))]
fn is_token_character(c: u8) -> bool
    ensures { result ≡ is_token_character c }
{
    c.is_ascii_alphanumeric() || b"!#$%&'*+-.^_`|~".contains(&c)
}

/// True exactly for a blank and a tab.
fn is_blank(c: u8) -> bool
    ensures { result ≡ is_blank c }
{
    c == b'\t' || c == b' '
}

/// How many characters of a token the text begins with.
fn token_length(text: &[u8]) -> usize
    ensures { result ≡ prefix_len is_token_character text.now }
{
    text.iter().take_while(|c| is_token_character(**c)).count()
}

/// How many blanks the text begins with.
fn blanks_before(text: &[u8]) -> usize
    ensures { result ≡ prefix_len is_blank text.now }
{
    text.iter().take_while(|c| is_blank(**c)).count()
}

/// How many blanks the text ends with.
fn blanks_after(text: &[u8]) -> usize
    ensures { result ≡ suffix_len is_blank text.now }
{
    text.iter().rev().take_while(|c| is_blank(**c)).count()
}

/// The text without the blanks at its front.
#[tactic(auto, using(crate::proofs::FrontLemmas::front_within))]
pub fn unspaced(text: &[u8]) -> &[u8]
    ensures value { result.now ≡ unspaced text.now }
    ensures within { length result.now ≤ length text.now }
{
    &text[blanks_before(text)..]
}

/// The text without the blanks at both ends.
#[tactic(auto, using(crate::proofs::FrontLemmas::end_within))]
pub fn trimmed(text: &[u8]) -> &[u8]
    ensures { result.now ≡ trimmed text.now }
{
    let text = unspaced(text);
    &text[..text.len() - blanks_after(text)]
}

/// The token that the text begins with, and what is after it.
#[tactic(auto, using(crate::proofs::FrontLemmas::front_within))]
pub fn token_at(text: &[u8]) -> Option<(&[u8], &[u8])>
    ensures value { MatchOption result (token_at text.now ≡ None)
        (λ found. token_at text.now ≡ Some (found.0.now, found.1.now)) }
    ensures within { IfSome result (λ found. length found.1.now ≤ length text.now) }
{
    match token_length(text) {
        0 => None,
        length => Some(text.split_at(length)),
    }
}

/// What is after a character, where the text begins with it.
pub fn behind(text: &[u8], c: u8) -> Option<&[u8]>
    ensures value { option_copied result ≡ behind c text.now }
    ensures within { IfSome result (λ found. length found.now < length text.now) }
{
    match text {
        [first, more @ ..] if *first == c => Some(more),
        _ => None,
    }
}

/// True exactly where both texts are the same but for the case of their letters.
pub fn is_same_word(text: &[u8], word: &[u8]) -> bool
    ensures { result ≡ str_eq_ignore_ascii_case text.now word.now }
{
    text.eq_ignore_ascii_case(word)
}
