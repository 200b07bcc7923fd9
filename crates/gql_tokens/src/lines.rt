ghost use Rattle.std.specs.Prelude.{◌≡◌, ◌==◌, ◌-◌, ◌++◌, ◌∷◌, [], ◌<◌, ◌≤◌, false, ℕ, List};
ghost use Rattle.std.specs.Prelude.{length, drop, IfOk, IfSome, OnOk, string_bytes};
ghost use Rattle.std.specs.Prelude.{encode_utf8_all};
ghost use Rattle.std.specs.List.{prefix_len, slice_index};
ghost use Rattle.std.specs.Str.{chars, IsUtf8, IsCharBoundary};
ghost use Rattle.gql_tokens.specs.Characters.{is_line_character, begins};
ghost use Rattle.gql_tokens.specs.Lines.{indent_of, is_blank_line, lines_of, common_indent};
ghost use Rattle.gql_tokens.specs.Lines.{without_common_indent, without_indent, block_value};
ghost use Rattle.gql_tokens.specs.Lines.{least_with};
ghost use Rattle.gql_tokens.specs.Parts.{IsFirstLine, IsKept};

use crate::characters::{is_blank, is_line_end};
use gql_base::{Made, Text};
use std::alloc::Global;

/// How many bytes stand before the end of the first line.
fn line_length(text: &[u8]) -> usize
    ensures exact { result ≡ prefix_len is_line_character text.now }
    ensures within { result ≤ length text.now }
{
    text.iter().take_while(|b| !is_line_end(**b)).count()
}

/// How many bytes end the line at the text's front: none at the end of the text.
fn line_end_length(text: &[u8]) -> usize
    requires { begins is_line_character text.now ≡ false }
    ensures within { result ≤ length text.now }
    ensures none { result ≡ 0 → text.now ≡ [] }
    ensures some { 0 < result → lines_of text.now ≡ [] ∷ lines_of (drop result text.now) }
    ensures ascii { 0 < result → slice_index text.now (result - 1) < 128 }
{
    if text.starts_with(b"\r\n") {
        2
    } else if text.is_empty() {
        0
    } else {
        1
    }
}

/// How many tabs and blanks a line begins with.
fn indent_length(line: &[u8]) -> usize
    ensures exact { result ≡ indent_of line.now }
    ensures within { result ≤ length line.now }
{
    line.iter().take_while(|b| is_blank(**b)).count()
}

/// The length of the first line, and where the next one begins.
fn first_line(text: &[u8]) -> (usize, Option<usize>)
    ensures first { IsFirstLine text.now result.0 result.1 }
    ensures cut { IsCharBoundary text.now result.0 }
    ensures next { IsUtf8 text.now → IfSome result.1 (λ n. IsCharBoundary text.now n) }
{
    let line = line_length(text);
    match line_end_length(&text[line..]) {
        0 => (line, None),
        end => (line, Some(line + end)),
    }
}

fn least_with(least: Option<usize>, indent: usize) -> usize
    ensures { result ≡ least_with least indent }
{
    match least {
        None => indent,
        Some(least) => least.min(indent),
    }
}

/// The least indent of the lines that hold more than tabs and blanks.
fn common_indent(text: &[u8]) -> Option<usize>
    ensures { result ≡ common_indent (lines_of text.now) }
{
    let mut least = None;
    let mut start = 0;
    loop {
        let (line, next) = first_line(&text[start..]);
        let indent = indent_length(&text[start..start + line]);
        if indent < line {
            least = Some(least_with(least, indent));
        }
        match next {
            Some(n) => start += n,
            None => return least,
        }
    }
}

/// The lines of a block string so far, joined, without the first blank ones. The last blank ones
/// stand after `length`.
#[derive(Drop)]
struct Kept {
    text: String,
    length: usize,
}

impl Kept {
    /// Adds a line.
    fn push(&mut self, line: &str) -> Made<()>
        ensures { OnOk result ((lines : List (List ℕ))
            → IsKept (string_bytes self.old.text) self.old.length lines
            → IsKept (string_bytes self.new.text) self.new.length (lines ++ line.now ∷ [])) }
    {
        let blank = indent_length(line.as_bytes()) == line.len();
        if self.text.is_empty() {
            if blank {
                return Ok(());
            }
            self.text.push_str(line)?;
            self.length = line.len();
            return Ok(());
        }
        self.text.push('\n')?;
        self.text.push_str(line)?;
        if !blank {
            self.length = self.text.len();
        }
        Ok(())
    }

    /// Adds the lines of a text without their common indent.
    fn push_others(&mut self, text: &str) -> Made<()>
        ensures { OnOk result ((lines : List (List ℕ))
            → IsKept (string_bytes self.old.text) self.old.length lines
            → IsKept (string_bytes self.new.text) self.new.length
            (lines ++ without_common_indent (lines_of text.now))) }
    {
        let bytes = text.as_bytes();
        let indent = common_indent(bytes).unwrap_or(0);
        let mut start = 0;
        loop {
            let (line, next) = first_line(&bytes[start..]);
            self.push(without_indent(&text[start..start + line], indent))?;
            match next {
                Some(n) => start += n,
                None => return Ok(()),
            }
        }
    }
}

fn without_indent(line: &str, indent: usize) -> &str
    requires { is_blank_line line.now ≡ false → indent ≤ indent_of line.now }
    ensures { result.now ≡ drop indent line.now }
{
    &line[indent.min(line.len())..]
}

/// The lines of a block string that are kept, without their indent.
fn kept_lines(alloc: Global, raw: &str) -> Made<Kept>
    ensures { IfOk result
        (λ kept. IsKept (string_bytes kept.text) kept.length (without_indent (lines_of raw.now))) }
{
    let mut kept = Kept {
        text: String::new(alloc),
        length: 0,
    };
    let (line, next) = first_line(raw.as_bytes());
    kept.push(&raw[..line])?;
    let Some(start) = next else {
        return Ok(kept);
    };
    kept.push_others(&raw[start..])?;
    Ok(kept)
}

/// The value of a block string, from what stands between its quotes.
pub fn block_value(alloc: Global, raw: &str) -> Made<Text>
    ensures { IfOk result (λ text. text ≡ encode_utf8_all (block_value (chars raw.now))) }
{
    let mut kept = kept_lines(alloc, raw)?;
    kept.text.truncate(kept.length);
    let text = Text::from_string(kept.text)?;
    Ok(text)
}
