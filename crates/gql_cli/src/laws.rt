//! Laws of what contracts say, as contracts of functions without parameters.
ghost use Rattle.std.specs.Prelude.{◌≡◌, ℕ, ℤ, Bool, List};
ghost use Rattle.gql_bench.specs.declared.bench.Bench.{Bench as OneBench};
ghost use Rattle.gql_cli.specs.Execution.{Between, RecordBy};
ghost use Rattle.gql_cli.specs.Gives.{Gives, IfResponse};
ghost use Rattle.gql_cli.specs.Load.{IsLoaded};
ghost use Rattle.gql_form.specs.declared.command.Command.{Command as OneCommand};
ghost use Rattle.gql_cli.specs.declared.outcome.Outcome.{Outcome as OneOutcome};
ghost use Rattle.gql_engine.specs.declared.scene.Scene.{Scene as OneScene};
ghost use Rattle.gql_io.specs.Limits.{input_limit};
ghost use Rattle.gql_resolve.specs.declared.record_entry.RecordEntry.{RecordEntry as OneEntry};

use gql_io::INPUT_LIMIT;

/// The limit that the code keeps to is the one that contracts cite.
pub fn limit_of_the_input()
    ensures { INPUT_LIMIT ≡ input_limit }
{}

/// A scene has one record at most over a bench, and leaves the turns in one state, whatever its
/// tasks are, however it finds the cells and whatever the turns.
pub fn one_record_of_a_scene()
    ensures entries { (bench : OneBench) (before : Between) (mutates : Bool) (scene : OneScene ℤ)
        (one other : List OneEntry) (after later : List ℕ × ℕ)
        → RecordBy bench before mutates scene one after
        → RecordBy bench before mutates scene other later → one ≡ other }
    ensures leaves { (bench : OneBench) (before : Between) (mutates : Bool) (scene : OneScene ℤ)
        (one other : List OneEntry) (after later : List ℕ × ℕ)
        → RecordBy bench before mutates scene one after
        → RecordBy bench before mutates scene other later → after ≡ later }
{}

/// The bytes of a bench give one thing to a command, and where that is a response, with one record.
pub fn one_result_of_a_bench()
    ensures outcome { (command : OneCommand) (bytes : List ℕ) (one other : OneOutcome)
        (entries others : List OneEntry)
        → Gives command bytes one entries → Gives command bytes other others → one ≡ other }
    ensures told { (command : OneCommand) (bytes : List ℕ) (one other : OneOutcome)
        (entries others : List OneEntry)
        → Gives command bytes one entries → Gives command bytes other others
        → IfResponse one (entries ≡ others) }
{}

/// A load of so many rows gives one line, with one record.
pub fn one_result_of_a_load()
    ensures { (rows : ℕ) (one other : List ℕ) (entries others : List OneEntry)
        → IsLoaded rows one entries → IsLoaded rows other others
        → (one ≡ other) × (entries ≡ others) }
{}
