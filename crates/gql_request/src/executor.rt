ghost use Rattle.std.specs.Prelude.{◌≡◌, IfOk, OnOk};
ghost use Rattle.gql_request.specs.StreamPolls.{PollsStream};

use crate::batch_no_memory::BatchNoMemory;
use crate::batch_request::BatchRequest;
use crate::batch_response::BatchResponse;
use crate::data::Data;
use crate::request::Request;
use crate::response::Response;
use crate::stream_poll::StreamPoll;
use gql_base::{Made, NoMemory};
use std::alloc::Global;

/// What executes requests over a world of its own: one after another, in batches, and as streams of
/// responses, which are polled.
pub trait Executor {
    ghost use Rattle.std.specs.Prelude.{ℕ, List, Option};
    ghost use Rattle.gql_base.specs.declared.server_error.ServerError.{ServerError as Fault};
    ghost use Rattle.gql_base.specs.declared.value.Value.{Value as OneValue};
    ghost use Rattle.gql_request.specs.declared.request.Request.{Request as Asked};
    ghost use Rattle.gql_request.specs.declared.response.Response.{Response as Reply};
    ghost use Rattle.gql_request.specs.declared.stream_poll.StreamPoll.{StreamPoll as Poll};

    /// A stream of responses.
    type Stream: Drop;

    /// What requests change.
    ghost World: { Type 0 };

    ghost world: { Self → World };

    /// That opening a stream, and a poll without a response, leave the world as it was.
    ghost is_steady: { Self → Type 0 };

    /// That a stream was opened for a request and the data of a session.
    ghost opened: { Self.Stream → Asked → List (ℕ × OneValue) → Type 0 };

    /// How many polls of a stream were answered with `Pending`.
    ghost pendings: { Self.Stream → ℕ };

    /// How many responses a stream gave, where it tells it.
    ghost items: { Self.Stream → Option ℕ };

    /// How often a stream was refused, where it tells it.
    ghost refusals: { Self.Stream → Option ℕ };

    /// How often a stream told its end, where it tells it.
    ghost ends: { Self.Stream → Option ℕ };

    /// That a stream may give this response next, in a world.
    ghost gives: { World → Self.Stream → Reply → Type 0 };

    /// That a stream may be refused with these errors next, in a world.
    ghost refuses: { World → Self.Stream → List Fault → Type 0 };

    /// That this world may stand after a response, which a stream gave in the earlier one.
    ghost leaves: { World → Self.Stream → Reply → World → Type 0 };

    /// That a poll with this answer, in a world, may leave this of a stream.
    ghost becomes: { World → Self.Stream → Poll → Self.Stream → Type 0 };

    /// The response to a request.
    fn execute(&mut self, alloc: Global, request: Request) -> Result<Response, NoMemory>;

    /// The response to one request, or those to the requests of a batch, in their order.
    fn execute_batch(
        &mut self,
        alloc: Global,
        batch: BatchRequest,
    ) -> Result<BatchResponse, BatchNoMemory>;

    /// Opens the stream of a request's responses, with the data of its session.
    fn execute_stream(
        &mut self,
        alloc: Global,
        request: Request,
        session_data: &Data,
    ) -> Made<Self::Stream>
        ensures opened { IfOk result (λ stream. ∥ opened stream request session_data.now ∥₁) }
        ensures steady { is_steady self.old → is_steady self.new }
        ensures world { is_steady self.old → OnOk result (world self.new ≡ world self.old) };

    /// Polls a stream.
    fn poll_stream(&mut self, alloc: Global, stream: &mut Self::Stream) -> Made<StreamPoll>
        ensures opened { (request : Asked) (session : List (ℕ × OneValue))
            → ∥ opened stream.old request session ∥₁ → ∥ opened stream.new request session ∥₁ }
        ensures steady { is_steady self.old → is_steady self.new }
        ensures polled { IfOk result (PollsStream world is_steady pendings items refusals ends
            gives refuses leaves becomes self.old self.new stream.old stream.new) };
}
