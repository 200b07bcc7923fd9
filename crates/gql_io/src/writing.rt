//! Writing a whole text into a sink.
ghost use Rattle.std.specs.Prelude.{◌≤◌, OnOk, OnErr, IsErrOf};
ghost use Rattle.std.specs.Io.KnownBytes.{Appends};
ghost use Rattle.gql_io.specs.Counts.{HasRisen};
ghost use Rattle.gql_io.specs.Writing.{AppendsStart};

use crate::sink::{Sink, SinkFault};

/// Writes a whole text. An error leaves the front of the text in the sink, as far as it came.
#[tactic(auto, using(crate::proofs::WritingSteps::writing_steps))]
pub fn write_whole<O: Sink>(sink: &mut O, text: &[u8]) -> Result<(), SinkFault>
    ensures whole { OnOk result (Appends (O.held sink.old) (O.held sink.new) text.now) }
    ensures start { OnErr result (AppendsStart (O.held sink.old) (O.held sink.new) text.now) }
    ensures cause { IsErrOf result SinkFault.Failed → HasRisen (O.faults sink.old) (O.faults sink.new) }
{
    let mut written = 0;
    while written < text.len() {
        match sink.write(&text[written..]) {
            Ok(count) => written += count,
            Err(fault) => return Err(fault),
        }
    }
    Ok(())
}
