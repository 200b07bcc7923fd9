ghost use Rattle.std.specs.Prelude.{◌≡◌};
ghost use Rattle.std.specs.List.{prefix_len};
ghost use Rattle.gql_base.specs.Letters.{is_name_part};

use crate::characters::is_name_part;

/// How many bytes at the text's front may be part of a name.
pub fn name_length(text: &[u8]) -> usize
    ensures { result ≡ prefix_len is_name_part text.now }
{
    text.iter().take_while(|b| is_name_part(**b)).count()
}
