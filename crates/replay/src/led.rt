// A round that is led by the program of its VCL.
ghost use Rattle.std.specs.Prelude.{◌≡◌, ◌∷◌, [], List, ℕ, IfOk, OnOk, None, option_map, true};
ghost use Rattle.cache_law.specs.declared.call.Reply.TheVariants.{Wait as Waits};
ghost use Rattle.cache_law.specs.declared.rounds.Given.{Given as Gifted};
ghost use Rattle.cache_law.specs.declared.rounds.Request.{Request as Asked};
ghost use Rattle.replay.specs.Policy.{goes_on};
ghost use Rattle.replay.specs.Rounds.{IsSaid, Wanted, WantedBy, address, said, token_in, woken};
ghost use Rattle.vcl_runs.specs.Languages.{language_of};
ghost use Rattle.replay.specs.Turns.{CanGo, HasProgram, IsLed, MayGo, StandsLed};
ghost use Rattle.replay.specs.declared.policy.Given.{Given as Event};
ghost use Rattle.round_task.specs.Responses.{text_given, text_in, text_told};

use crate::{Given, Want};
use cache_law::rounds::{Given as Gift, Request};
use cache_law::{Call, Reply, Told};
use delivery::print_delivery;
use http_heads::RequestHead;
use round_task::{Round, Want as RoundWant};
use std::alloc::{AllocError, Global};
use std::marker::PhantomData;
use std::mem;
use units::{Shared, Text};
use vcl_runs::{Programs, Runner};

/// A round under way. `M` runs its subroutines, `P` is what it runs, and `L` is a library of such programs.
#[derive(Drop)]
pub struct Led<M, P, L> {
    round: Round<M>,
    /// Whether its Begin was answered.
    begun: bool,
    /// The program of the text that its Begin was told.
    program: Option<Shared<P>>,
    /// What it asks for once the fetch that it waits for is closed.
    again: Option<Call>,
    library: PhantomData<L>,
}

// The address of a session's client.
fn address_of(client: u32) -> [u8; 4]
    ensures { result ≡ address client }
{
    [10, 0, 0, client.min(255) as u8]
}

// What a round wants, for the schedule.
fn say(alloc: Global, want: RoundWant) -> Result<Want, AllocError>
    ensures { IfOk result (λ wanted. wanted ≡ said want) }
{
    match want {
        RoundWant::Cache(call) => Ok(Want::Ask(call)),
        RoundWant::Exchange {
            number,
            backend,
            request,
        } => Ok(Want::Exchange {
            number,
            backend,
            request,
        }),
        RoundWant::Send(delivery) => Ok(Want::Respond(print_delivery(alloc, &delivery)?)),
        RoundWant::Done => Ok(Want::Done),
    }
}

// What is asked for by a round that waited.
fn wake(want: RoundWant) -> Call
    ensures { result ≡ woken want }
{
    match want {
        RoundWant::Cache(Call::Lookup(query)) => Call::Lookup(query),
        other => {
            drop(other);
            Call::End
        }
    }
}

// The number and the text of the VCL that a reply begins a round under.
fn begun_under(reply: &Reply) -> Option<(u32, &Text)>
    ensures { option_map (λ found. found.1.now) result ≡ text_told reply.now }
{
    match reply {
        Reply::Began { vcl, text, .. } => Some((*vcl, text)),
        _other => None,
    }
}

fn began_by(given: &Gift) -> Option<(u32, &Text)>
    ensures { option_map (λ found. found.1.now) result ≡ text_given given.now }
{
    match given {
        Gift::Reply(told) => begun_under(&told.reply),
        _other => None,
    }
}

// The fetch that a reply tells to wait for.
fn token_of(reply: &Reply) -> Option<u64>
    ensures { result ≡ token_in reply.now }
{
    match reply {
        Reply::Wait(token) => Some(*token),
        _other => None,
    }
}

impl<M: Runner, L: Programs<M>> Led<M, M::Program, L>
where
    M::Program: Drop,
{
    /// The round of a client's request, before its Begin.
    pub(crate) fn new(client: u32, head: RequestHead, body: Text) -> Led<M, M::Program, L>
        ensures { IsLed (language_of L.of_text M.turns M.targets M.default_of L.backends) M.stands M.fits (record { head = head; body = body }) (address client) [] result }
    {
        Led {
            round: Round::start(Request { head, body }, address_of(client)),
            begun: false,
            program: None,
            again: None,
            library: PhantomData,
        }
    }

    // The program is that of the text that the round's Begin was told; where it was told none, there is none.
    fn open(&mut self, alloc: Global, library: &mut L, given: &Gift) -> Result<(), AllocError>
        ensures program { OnOk result (HasProgram L.of_text self.old.begun self.old.program (text_given given.now) self.new.program) }
        ensures begun { OnOk result (self.new.begun ≡ true) }
        ensures round { self.new.round ≡ self.old.round }
        ensures again { self.new.again ≡ self.old.again }
    {
        if self.begun {
            return Ok(());
        }
        self.begun = true;
        match began_by(given) {
            Some((vcl, text)) => {
                self.program = Some(library.program(alloc, vcl, text)?);
                Ok(())
            }
            None => Ok(()),
        }
    }

    // What the round wants after this.
    fn give(&mut self, alloc: Global, library: &mut L, given: Gift) -> Result<RoundWant, AllocError>
        requires { MayGo (language_of L.of_text M.turns M.targets M.default_of L.backends) M.stands M.fits self.old.round self.old.begun self.old.program }
        ensures stands { OnOk result ((message : Asked) (peer : List ℕ) (before : List Gifted)
            → StandsLed (language_of L.of_text M.turns M.targets M.default_of L.backends) M.stands M.fits message peer before self.old.round self.old.begun self.old.program
            → StandsLed (language_of L.of_text M.turns M.targets M.default_of L.backends) M.stands M.fits message peer (given ∷ before) self.new.round self.new.begun self.new.program) }
        ensures wanted { IfOk result (λ want. (message : Asked) (peer : List ℕ) (before : List Gifted)
            → StandsLed (language_of L.of_text M.turns M.targets M.default_of L.backends) M.stands M.fits message peer before self.old.round self.old.begun self.old.program
            → WantedBy (language_of L.of_text M.turns M.targets M.default_of L.backends) message peer (given ∷ before) (text_in (given ∷ before)) want) }
        ensures again { self.new.again ≡ self.old.again }
    {
        let Ok(()) = self.open(alloc, library, &given) else {
            drop(given);
            return Err(AllocError);
        };
        match &self.program {
            Some(program) => self.round.resume(alloc, program, None, given),
            None => {
                drop(given);
                Ok(RoundWant::Done)
            }
        }
    }

    // What it wants after the answer to its call.
    fn answered(
        &mut self,
        alloc: Global,
        library: &mut L,
        moment: u64,
        reply: Reply,
    ) -> Result<Want, AllocError>
        requires { MayGo (language_of L.of_text M.turns M.targets M.default_of L.backends) M.stands M.fits self.old.round self.old.begun self.old.program }
        ensures stands { OnOk result ((message : Asked) (peer : List ℕ) (before : List Event)
            → IsLed (language_of L.of_text M.turns M.targets M.default_of L.backends) M.stands M.fits message peer before self.old
            → IsLed (language_of L.of_text M.turns M.targets M.default_of L.backends) M.stands M.fits message peer (Given.Told moment reply ∷ before) self.new) }
        ensures wanted { IfOk result (λ want. (message : Asked) (peer : List ℕ) (before : List Event)
            → IsLed (language_of L.of_text M.turns M.targets M.default_of L.backends) M.stands M.fits message peer before self.old
            → Wanted (language_of L.of_text M.turns M.targets M.default_of L.backends) message peer (Given.Told moment reply ∷ before) want) }
        ensures waits { (token : ℕ) → reply ≡ Waits token → IfOk result (λ want. want ≡ Want.Await token) }
    {
        let token = token_of(&reply);
        let told = Told {
            moment,
            place: 0,
            reply,
        };
        let want = self.give(alloc, library, Gift::Reply(told))?;
        match token {
            Some(token) => {
                drop(mem::replace(&mut self.again, Some(wake(want))));
                Ok(Want::Await(token))
            }
            None => {
                drop(self.again.take());
                say(alloc, want)
            }
        }
    }

    // What it wants after its exchange, or behind its response.
    fn passed(&mut self, alloc: Global, library: &mut L, given: Gift) -> Result<Want, AllocError>
        requires { MayGo (language_of L.of_text M.turns M.targets M.default_of L.backends) M.stands M.fits self.old.round self.old.begun self.old.program }
        ensures stands { OnOk result ((message : Asked) (peer : List ℕ) (before : List Gifted)
            → StandsLed (language_of L.of_text M.turns M.targets M.default_of L.backends) M.stands M.fits message peer before self.old.round self.old.begun self.old.program
            → StandsLed (language_of L.of_text M.turns M.targets M.default_of L.backends) M.stands M.fits message peer (given ∷ before) self.new.round self.new.begun self.new.program) }
        ensures wanted { IfOk result (λ want. (message : Asked) (peer : List ℕ) (before : List Gifted)
            → StandsLed (language_of L.of_text M.turns M.targets M.default_of L.backends) M.stands M.fits message peer before self.old.round self.old.begun self.old.program
            → IsSaid (language_of L.of_text M.turns M.targets M.default_of L.backends) message peer (given ∷ before) want) }
        ensures again { self.new.again ≡ None }
    {
        drop(self.again.take());
        let want = self.give(alloc, library, given)?;
        say(alloc, want)
    }

    /// What it wants next. Where the fetch is closed that it waited for, it was told to wait.
    pub(crate) fn resume(
        &mut self,
        alloc: Global,
        library: &mut L,
        given: Given,
    ) -> Result<Want, AllocError>
        requires { CanGo (language_of L.of_text M.turns M.targets M.default_of L.backends) M.stands M.fits given self.old }
        ensures stands { OnOk result ((message : Asked) (peer : List ℕ) (before : List Event)
            → IsLed (language_of L.of_text M.turns M.targets M.default_of L.backends) M.stands M.fits message peer before self.old
            → IsLed (language_of L.of_text M.turns M.targets M.default_of L.backends) M.stands M.fits message peer (given ∷ before) self.new) }
        ensures wanted { IfOk result (λ want. (message : Asked) (peer : List ℕ) (before : List Event)
            → IsLed (language_of L.of_text M.turns M.targets M.default_of L.backends) M.stands M.fits message peer before self.old
            → Wanted (language_of L.of_text M.turns M.targets M.default_of L.backends) message peer (given ∷ before) want) }
        ensures waits { (moment token : ℕ) → given ≡ Given.Told moment (Waits token) → IfOk result (λ want. want ≡ Want.Await token) }
        ensures calls { given ≡ Given.Closed → IfOk result (λ want. goes_on want ≡ true) }
    {
        match given {
            Given::Start { .. } => {
                drop(self.again.take());
                Ok(Want::Ask(Call::Begin))
            }
            Given::Told { moment, reply } => self.answered(alloc, library, moment, reply),
            Given::Came(got) => self.passed(alloc, library, Gift::Exchange(got)),
            Given::Sent => self.passed(alloc, library, Gift::Sent),
            Given::Closed => match self.again.take() {
                Some(call) => Ok(Want::Ask(call)),
                None => unreachable!(),
            },
        }
    }
}
