ghost use Rattle.std.specs.Prelude.{◌≡◌};
ghost use Rattle.std.specs.List.{list_all};
ghost use Rattle.gql_base.specs.Letters.{is_name_start, is_name_part, is_name};

/// True exactly where a text is a name (GraphQL, October 2021, section 2.1.9).
pub fn is_name(text: &str) -> bool
    ensures { result ≡ is_name text.now }
{
    match text.as_bytes().split_first() {
        Some((first, others)) => is_name_start(*first) && are_name_parts(others),
        None => false,
    }
}

fn are_name_parts(letters: &[u8]) -> bool
    ensures { result ≡ list_all is_name_part letters.now }
{
    for letter in letters {
        if !is_name_part(*letter) {
            return false;
        }
    }
    true
}

fn is_name_start(letter: u8) -> bool
    ensures { result ≡ is_name_start letter }
{
    letter.is_ascii_alphabetic() || letter == b'_'
}

fn is_name_part(letter: u8) -> bool
    ensures { result ≡ is_name_part letter }
{
    is_name_start(letter) || letter.is_ascii_digit()
}
