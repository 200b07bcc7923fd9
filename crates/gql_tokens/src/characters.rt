ghost use Rattle.std.specs.Prelude.{◌≡◌};
ghost use Rattle.gql_base.specs.Letters.{is_name_start, is_name_part};
ghost use Rattle.gql_tokens.specs.Characters.{is_blank, is_line_end, is_source};
ghost use Rattle.gql_tokens.specs.Characters.{is_comment_character};

pub fn is_blank(b: u8) -> bool
    ensures { result ≡ is_blank b }
{
    b == b'\t' || b == b' '
}

pub fn is_line_end(b: u8) -> bool
    ensures { result ≡ is_line_end b }
{
    b == b'\n' || b == b'\r'
}

pub fn is_source(b: u8) -> bool
    ensures { result ≡ is_source b }
{
    b == b'\t' || is_line_end(b) || b >= b' '
}

pub fn is_comment_character(b: u8) -> bool
    ensures { result ≡ is_comment_character b }
{
    is_source(b) && !is_line_end(b)
}

pub fn is_name_start(b: u8) -> bool
    ensures { result ≡ is_name_start b }
{
    b.is_ascii_alphabetic() || b == b'_'
}

pub fn is_name_part(b: u8) -> bool
    ensures { result ≡ is_name_part b }
{
    is_name_start(b) || b.is_ascii_digit()
}
