//! What is due for words and a source.
ghost use Rattle.std.specs.Prelude.{◌≡◌, ◌↔◌, ℕ, ◌<◌, [], ◌∷◌, IfOk, IsTrue, MatchOption, Some, map};
ghost use Rattle.std.specs.Prelude.{slice_index, string_bytes};
ghost use Rattle.gql_cli.specs.Command.{IsLoad, IsRowCount, words_for};
ghost use Rattle.gql_cli.specs.Gives.{HoldsTold};
ghost use Rattle.gql_cli.specs.Run.{IsDue, IsDueUnread, IsOfCommand, IsOfLoad};

use crate::bytes::outcome_of;
use crate::load::load_outcome;
use crate::outcome::Outcome;
use gql_base::Made;
use gql_bench::Tables;
use gql_form::Command;
use gql_io::{Reading, Source, read_whole};
use std::alloc::Global;

/// Finds what is due: the words are looked at first, and where they are a command's the source is
/// read whole. A bench's requests are executed over a set that `tables` makes and holds.
pub(crate) fn decide<I: Source, M: Tables>(
    alloc: Global,
    words: &[String],
    source: &mut I,
    tables: &mut M,
) -> Made<Outcome>
    ensures due { IfOk result (IsDue I.Source (HoldsTold (M.held tables.new) M.Set.told)
        (map string_bytes words.now) source.old source.new) }
    ensures unread { ¬ IsOfCommand (map string_bytes words.now) → source.new ≡ source.old }
{
    let Some(command) = command_of(words) else {
        return unread_outcome(alloc, words, tables);
    };
    match read_whole(alloc, source)? {
        Reading::Whole(bytes) => outcome_of(alloc, command, bytes, tables),
        Reading::TooLong => Ok(Outcome::TooLong),
        Reading::Failed => Ok(Outcome::ReadFault),
    }
}

/// What is due for words that aren't a command's: the line of a load, or that on the usage.
fn unread_outcome<M: Tables>(alloc: Global, words: &[String], tables: &mut M) -> Made<Outcome>
    requires { ¬ IsOfCommand (map string_bytes words.now) }
    ensures { IfOk result (IsDueUnread (HoldsTold (M.held tables.new) M.Set.told)
        (map string_bytes words.now)) }
{
    match load_of(words) {
        Some(rows) => load_outcome(alloc, rows, tables),
        None => Ok(Outcome::Usage),
    }
}

/// The command of words, where they are those of one.
fn command_of(words: &[String]) -> Option<Command>
    ensures { MatchOption result (¬ IsOfCommand (map string_bytes words.now))
        (λ command. words_for command ≡ Some (map string_bytes words.now)) }
{
    match words {
        [word] => command_named(word.as_str()),
        _ => None,
    }
}

fn command_named(word: &str) -> Option<Command>
    ensures { MatchOption result (¬ IsOfCommand (word.now ∷ []))
        (λ command. words_for command ≡ Some (word.now ∷ [])) }
{
    match word {
        "execute" => Some(Command::Execute),
        "record" => Some(Command::Record),
        "batch" => Some(Command::Batch),
        _ => None,
    }
}

/// How many rows `load` is asked for, where the words are its own.
fn load_of(words: &[String]) -> Option<usize>
    ensures { MatchOption result (¬ IsOfLoad (map string_bytes words.now))
        (λ rows. IsLoad rows (map string_bytes words.now)) }
{
    match words {
        [word, count] => load_named(word.as_str(), count.as_str()),
        _ => None,
    }
}

fn load_named(word: &str, count: &str) -> Option<usize>
    ensures { MatchOption result (¬ IsOfLoad (word.now ∷ count.now ∷ []))
        (λ rows. IsLoad rows (word.now ∷ count.now ∷ [])) }
{
    match word {
        "load" => row_count(count),
        _ => None,
    }
}

/// The number that a word is, where it is one of 1 to 10,000, without sign or leading zero.
fn row_count(word: &str) -> Option<usize>
    ensures { MatchOption result ((rows : ℕ) → ¬ IsRowCount rows word.now)
        (λ rows. IsRowCount rows word.now) }
{
    match word.parse::<usize>() {
        Ok(rows) if rows <= 10_000 && begins_above_zero(word) => Some(rows),
        _ => None,
    }
}

/// Whether the first character of a word comes after `0`: neither that nor a sign does.
fn begins_above_zero(word: &str) -> bool
    ensures { IsTrue result ↔ (48 < slice_index word.now 0) }
{
    match word.as_bytes().first() {
        Some(first) => *first > b'0',
        None => false,
    }
}
