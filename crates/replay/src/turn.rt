// How what a client sent is answered: a round is led by its VCL, what can't be read is refused, and a line of the console
// is answered.
ghost use Rattle.std.specs.Prelude.{◌≡◌, IfOk};
ghost use Rattle.replay.specs.Turns.{refusal_want};

use crate::console::lead_line;
use crate::led::Led;
use crate::{Given, Instruction, Message, Policy, Request, Want};
use cache_law::{Call, Reply};
use http_heads::bad_request;
use std::alloc::{AllocError, Global};
use units::Text;
use vcl_runs::{Programs, Runner};

/// A client's turn, from what it sent on. `M` runs its subroutines, `P` is what it runs, and `L` is a library of such programs.
#[derive(Drop)]
pub enum Turn<M, P, L> {
    /// It is a whole request.
    Round(Led<M, P, L>),
    /// What it sent can't be read, and is answered so, with no call made.
    Refusal,
    /// It is a line of the console.
    Console(Instruction),
}

// What a refusal wants next.
fn refuse(alloc: Global, given: Given) -> Result<Want, AllocError>
    ensures { IfOk result (λ want. want ≡ refusal_want given) }
{
    match given {
        Given::Start { .. } => Ok(Want::Respond(Text::of(alloc, bad_request())?)),
        Given::Told {
            reply: Reply::Wait(token),
            ..
        } => Ok(Want::Await(token)),
        Given::Told { .. } | Given::Came(_) | Given::Sent => Ok(Want::Done),
        Given::Closed => Ok(Want::Ask(Call::End)),
    }
}

impl<M: Runner, L: Programs<M>> Policy for Turn<M, M::Program, L>
where
    M::Program: Drop,
{
    ghost use Rattle.vcl_runs.specs.Languages.{language_of};
    ghost use Rattle.replay.specs.Turns.{Wants, StandsAt};
    ghost use Rattle.replay.specs.OneWant.{wants-one};

    type Context = L;

    ghost wants = { Wants (language_of L.of_text M.turns M.targets M.default_of L.backends) };

    ghost stands = { StandsAt (language_of L.of_text M.turns M.targets M.default_of L.backends) M.stands M.fits };

    ghost one_want = { wants-one (language_of L.of_text M.turns M.targets M.default_of L.backends) (record { same = L.one_meaning; turns = λ program ran one other p q. M.one_turn program ran one other p q }) };

    fn start(alloc: Global, request: Request) -> Result<Self, AllocError> {
        let Request { client, message } = request;
        match message {
            Message::Whole { head, body } => Ok(Turn::Round(Led::new(client, head, body))),
            Message::Unreadable => Ok(Turn::Refusal),
            Message::Line(instruction) => Ok(Turn::Console(instruction)),
        }
    }

    fn resume(&mut self, alloc: Global, context: &mut L, given: Given) -> Result<Want, AllocError> {
        match self {
            Turn::Round(round) => round.resume(alloc, context, given),
            Turn::Refusal => refuse(alloc, given),
            Turn::Console(instruction) => lead_line(alloc, instruction, given),
        }
    }
}
