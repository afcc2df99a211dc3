// What stands on the desk: all that a cache keeps but bans and objects, and the calls that concern these alone.
ghost use Rattle.std.specs.Prelude.{◌≡◌, ℕ, ◌+◌, ◌<◌, ◌^◌, ◌↔◌, ◌≤◌, ◌∷◌, [], true, false, IsTrue, length, if◌then◌else◌, Some, None, IfOk, OnErr, OnOk};
ghost use Rattle.directors.specs.declared.target.Target.{Target as Aim};
ghost use Rattle.cache_law.specs.declared.call.Call.TheVariants.{Begin as BeginCall, Draw as DrawCall, Pick as PickCall, SetHealth as SetHealthCall, Load as LoadCall, Switch as SwitchCall, Discard as DiscardCall, VclList as VclListCall, Drop as DropCall, End as EndCall};
ghost use Rattle.cache_law.specs.declared.call.Reply.TheVariants.{Began};
ghost use Rattle.cache_law.specs.Bases.{IsClosed};
ghost use Rattle.cache_law.specs.State.{at_moment, awaits, has_round, has_fetch, is_closed, least_token, with_wait, without_fetch, without_fetches_of, without_round_of};
ghost use Rattle.cache_law.specs.Beginning.{base_of, boot_vcl};
ghost use Rattle.cache_law.specs.Law.{answered, begun, drawn, dropped, picked, picked_at, health_set, loaded, switched, discarded, vcls_listed, ended};
ghost use Rattle.cache_law.specs.History.{is_numbered};
ghost use Rattle.cache_desk.specs.Desk.{bare};
ghost use Rattle.cache_desk.specs.Opening.{next_after, opened_for, without_newest};
ghost use Rattle.cache_desk.specs.Answers.{Answers};
ghost use Rattle.cache_desk.specs.Stock.{Stock, with_stock};

use crate::answer::Answer;
use crate::picking::{chosen, count_on, name_at, set_health_of};
use crate::rounds::{
    awaits, close_fetch, close_fetches_of, close_newest_if, close_round_of, count_fetches_without,
    count_rounds_without, count_without, has_fetch, has_round, is_closed, least_token, next_after,
    open_fetch_if, remember,
};
use crate::vcls::{called, discard, has_backend, is_taken, keep_used, numbered, vcl_lines};
use cache_law::{
    Boot, Call, Counter, ForcedHealth, Health, LoadedVcl, OpenFetch, OpenRound, Reply, Vcl,
    VclSource,
};
use directors::Target;
use std::alloc::{AllocError, Global};
use std::collections::VecDeque;
use std::marker::Model;
use std::mem;
use units::{Copied, Sequence, Shared, Text, out_of_memory};

/// The number of the opening VCL.
const BOOT_VCL: u32 = 1;

/// The numbers of VCLs are below this.
const VCL_NUMBERS: u64 = 1 << 32;

/// What is kept, with the newest of fetches and rounds first.
#[derive(Drop)]
pub struct Desk {
    // how many entries there are
    entries: u64,
    moment: u64,
    next: u64,
    next_vcl: u64,
    active: Shared<Vcl>,
    vcls: Vec<LoadedVcl>,
    counters: Vec<Counter>,
    health: Vec<ForcedHealth>,
    fetches: VecDeque<OpenFetch>,
    rounds: VecDeque<OpenRound>,
}

impl Model for Desk {
    ghost use Rattle.cache_desk.specs.Desk.{DeskState};

    ghost Value = { DeskState };

    ghost view = { λ d. record {
      entries = d.entries;
      moment = d.moment;
      next = d.next;
      next_vcl = d.next_vcl;
      active = d.active;
      vcls = d.vcls.items;
      counters = d.counters.items;
      health = d.health.items;
      fetches = d.fetches.items;
      rounds = d.rounds.items;
    } };
}

impl Desk {
    pub fn new(alloc: Global, boot: &Boot) -> Result<Desk, AllocError>
        ensures { IfOk result (λ desk. bare desk ≡ base_of boot.now) }
    {
        let active = Shared::new(alloc, opening_vcl(alloc, boot)?)?;
        let vcls = match only_vcl(alloc, &active) {
            Ok(vcls) => vcls,
            Err(_) => return Err(out_of_memory(active)),
        };
        Ok(Desk {
            entries: 0,
            moment: 0,
            next: 1,
            next_vcl: u64::from(BOOT_VCL) + 1,
            active,
            vcls,
            counters: Vec::new(alloc),
            health: Vec::new(alloc),
            fetches: VecDeque::new(alloc),
            rounds: VecDeque::new(alloc),
        })
    }

    /// Whether no open fetch has the number.
    pub fn closed(&self, token: u64) -> bool
        ensures { result ≡ is_closed self.now.fetches token }
    {
        is_closed(&self.fetches, token)
    }

    /// The token that the caller's newest lookup was told to wait for, while it isn't closed.
    pub fn awaits(&self, caller: u32) -> Option<u64>
        ensures { result ≡ awaits (bare self.now) caller }
    {
        awaits(&self.rounds, &self.fetches, caller)
    }

    /// Whether no round and no fetch is open.
    pub fn is_idle(&self) -> bool
        ensures { IsTrue result ↔ IsClosed (bare self.now) }
    {
        self.rounds.is_empty() && self.fetches.is_empty()
    }

    pub fn moment(&self) -> u64
        ensures { result ≡ self.now.moment }
    {
        self.moment
    }

    /// How many entries there are from a run's beginning on.
    pub fn entries(&self) -> u64
        ensures { result ≡ self.now.entries }
    {
        self.entries
    }

    /// Takes note of how many entries there are.
    pub fn set_entries(&mut self, entries: u64)
        ensures { self.new ≡ record self.old { entries = entries } }
    {
        self.entries = entries;
    }

    /// Whether the caller's round is open.
    pub fn has_round(&self, caller: u32) -> bool
        ensures { result ≡ has_round self.now.rounds caller }
    {
        has_round(&self.rounds, caller)
    }

    /// Whether the fetch of the number is open for the caller.
    pub fn has_fetch(&self, caller: u32, token: u64) -> bool
        ensures { result ≡ has_fetch self.now.fetches caller token }
    {
        has_fetch(&self.fetches, caller, token)
    }

    /// The least token of the open fetches of a key.
    pub fn least_token(&self, key: &[Text]) -> Option<u64>
        ensures { result ≡ least_token key.now self.now.fetches }
    {
        least_token(&self.fetches, key)
    }

    /// The next number to be drawn.
    pub fn next(&self) -> u64
        ensures { result ≡ self.now.next }
    {
        self.next
    }

    /// Nothing happens but that the moment comes.
    pub fn pass(&mut self, moment: u64)
        ensures { self.new ≡ record self.old { moment = moment } }
    {
        self.moment = moment;
    }

    /// Opens a fetch of the key under the next number, if one is to be opened. The number isn't drawn yet.
    pub fn open_fetch_if(
        &mut self,
        alloc: Global,
        opens: bool,
        caller: u32,
        key: &Sequence<Text>,
    ) -> Result<(), AllocError>
        ensures ok { OnOk result (self.new ≡ record self.old { fetches = opened_for opens self.old.next caller key.now self.old.fetches }) }
        ensures err { OnErr result (self.new ≡ self.old) }
    {
        open_fetch_if(alloc, &mut self.fetches, opens, self.next, caller, key)
    }

    /// Closes the fetch that was opened last, if one was.
    pub fn close_newest_if(&mut self, opened: bool)
        ensures { self.new ≡ record self.old { fetches = without_newest opened self.old.fetches } }
    {
        close_newest_if(&mut self.fetches, opened);
    }

    /// Takes note of a lookup of the caller, which drew the next number or not, and was told to wait or not.
    pub fn note_lookup(&mut self, caller: u32, moment: u64, opened: bool, waits: Option<u64>)
        requires { self.old.next + 1 < 2 ^ 64 }
        ensures { self.new ≡ record self.old { moment = moment; next = next_after opened self.old.next; rounds = with_wait caller waits self.old.rounds } }
    {
        self.next = next_after(opened, self.next);
        remember(&mut self.rounds, caller, waits);
        self.moment = moment;
    }

    /// Closes the fetch of the number.
    pub fn close_fetch(&mut self, moment: u64, token: u64)
        ensures { self.new ≡ record self.old { moment = moment; fetches = without_fetch token self.old.fetches } }
    {
        close_fetch(&mut self.fetches, token);
        self.moment = moment;
    }

    /// How many rounds and fetches are open.
    pub fn open(&self) -> u128
        ensures value { result ≡ length self.now.rounds + length self.now.fetches }
        ensures bound { result < 2 ^ 65 }
    {
        self.rounds.len() as u128 + self.fetches.len() as u128
    }

    /// Whether the law gives a VCL that the call loads a number of 32 bits.
    pub fn is_numbered(&self, call: &Call) -> bool
        ensures { (room caller moment : ℕ) (stock : Stock) → result ≡ is_numbered (answered room (at_moment moment (with_stock stock (bare self.now))) caller call.now).reply }
    {
        match call {
            Call::Load(source) => {
                is_taken(self.vcls.as_slice(), &source.name) || self.next_vcl < VCL_NUMBERS
            }
            Call::Begin | Call::Draw | Call::Lookup(_) | Call::Pick { .. } => true,
            Call::Insert { .. } | Call::Ban(_) | Call::BanList | Call::Purge { .. } => true,
            Call::Xkey { .. } | Call::SetHealth { .. } | Call::Switch { .. } => true,
            Call::Discard { .. } | Call::VclList | Call::Drop { .. } | Call::End => true,
        }
    }

    /// What is open once the caller has a round.
    pub fn open_with_round(&self, caller: u32) -> u128
        ensures value { result ≡ length self.now.rounds + length self.now.fetches + (if has_round self.now.rounds caller then 0 else 1) }
        ensures bound { result ≤ 2 ^ 65 }
    {
        if has_round(&self.rounds, caller) {
            self.open()
        } else {
            self.open() + 1
        }
    }

    /// What is open once the fetch of this number is closed, whoever's it is.
    pub fn open_without(&self, token: u64) -> u128
        ensures value { result ≡ length self.now.rounds + length (without_fetch token self.now.fetches) }
        ensures bound { result < 2 ^ 65 }
    {
        let others = count_without(&self.fetches, token);
        self.rounds.len() as u128 + others as u128
    }

    /// What is open once the fetch is closed, if it is open for the caller.
    pub fn open_without_fetch(&self, caller: u32, token: u64) -> u128
        ensures value { result ≡ length self.now.rounds + (if has_fetch self.now.fetches caller token then length (without_fetch token self.now.fetches) else length self.now.fetches) }
        ensures bound { result < 2 ^ 65 }
    {
        if !has_fetch(&self.fetches, caller, token) {
            return self.open();
        }
        self.open_without(token)
    }

    /// What is open once the caller's round and its fetches are closed, if it has a round.
    pub fn open_without_round(&self, caller: u32) -> u128
        ensures value { result ≡ (if has_round self.now.rounds caller
            then length (without_round_of caller self.now.rounds) + length (without_fetches_of caller self.now.fetches)
            else length self.now.rounds + length self.now.fetches) }
        ensures bound { result < 2 ^ 65 }
    {
        if !has_round(&self.rounds, caller) {
            return self.open();
        }
        let rounds = count_rounds_without(&self.rounds, caller);
        let fetches = count_fetches_without(&self.fetches, caller);
        rounds as u128 + fetches as u128
    }

    pub fn begin(&mut self, alloc: Global, caller: u32, moment: u64) -> Result<Answer, AllocError>
        requires { self.old.next + 1 < 2 ^ 64 }
        ensures ok { IfOk result (Answers (bare self.old) (bare self.new) moment BeginCall (begun (at_moment moment (bare self.old)) caller)) }
        ensures err { OnErr result (self.new ≡ self.old) }
    {
        if has_round(&self.rounds, caller) {
            self.moment = moment;
            return Ok(Answer {
                told: Reply::NoRound,
                kept: Reply::NoRound,
            });
        }
        let answer = Answer::twice(alloc, began(self.next, &self.active)?)?;
        let round = OpenRound {
            caller,
            vcl: self.active.number,
            waits: None,
        };
        if self.rounds.push_front(round).is_err() {
            return Err(out_of_memory(answer));
        }
        self.next += 1;
        self.moment = moment;
        Ok(answer)
    }

    pub fn draw(&mut self, caller: u32, moment: u64) -> Answer
        requires { self.old.next + 1 < 2 ^ 64 }
        ensures { Answers (bare self.old) (bare self.new) moment DrawCall (drawn (at_moment moment (bare self.old)) caller) result }
    {
        self.moment = moment;
        if !has_round(&self.rounds, caller) {
            return Answer {
                told: Reply::NoRound,
                kept: Reply::NoRound,
            };
        }
        let number = self.next;
        self.next += 1;
        Answer {
            told: Reply::Drawn(number),
            kept: Reply::Drawn(number),
        }
    }

    /// Picks a member of the target by the health of the VCL's backends and the director's counter.
    pub fn pick(
        &mut self,
        alloc: Global,
        moment: u64,
        vcl: u32,
        target: &Target,
        word: u64,
    ) -> Result<Answer, AllocError>
        ensures ok { IfOk result (Answers (bare self.old) (bare self.new) moment (PickCall vcl target.now word) (picked (at_moment moment (bare self.old)) vcl target.now word)) }
        ensures err { OnErr result (self.new ≡ self.old) }
    {
        let place = chosen(
            alloc,
            self.health.as_slice(),
            self.counters.as_slice(),
            vcl,
            target,
            word,
        )?;
        match place {
            Some(place) => self.pick_at(alloc, moment, vcl, target, place),
            None => Ok(self.pick_none(moment)),
        }
    }

    /// Picks the member at the place.
    fn pick_at(
        &mut self,
        alloc: Global,
        moment: u64,
        vcl: u32,
        target: &Target,
        place: usize,
    ) -> Result<Answer, AllocError>
        requires { place < length target.now.members }
        ensures ok { (word : ℕ) → IfOk result (Answers (bare self.old) (bare self.new) moment (PickCall vcl target.now word) (picked_at (at_moment moment (bare self.old)) vcl target.now (Some place))) }
        ensures err { OnErr result (self.new ≡ self.old) }
    {
        let name = name_at(target.members.as_slice(), place)?;
        let answer = Answer::twice(alloc, Reply::Picked(name))?;
        if count_on(&mut self.counters, vcl, target, place).is_err() {
            return Err(out_of_memory(answer));
        }
        self.moment = moment;
        Ok(answer)
    }

    /// No member is healthy.
    fn pick_none(&mut self, moment: u64) -> Answer
        ensures { (vcl word : ℕ) (target : Aim) → Answers (bare self.old) (bare self.new) moment (PickCall vcl target word) (picked_at (at_moment moment (bare self.old)) vcl target None) result }
    {
        self.moment = moment;
        Answer {
            told: Reply::Picked(None),
            kept: Reply::Picked(None),
        }
    }

    /// Sets the health of a backend of the active VCL.
    pub fn set_health(
        &mut self,
        moment: u64,
        backend: &Text,
        given: Health,
    ) -> Result<Answer, AllocError>
        ensures ok { IfOk result (Answers (bare self.old) (bare self.new) moment (SetHealthCall backend.now given) (health_set (at_moment moment (bare self.old)) backend.now given)) }
        ensures err { OnErr result (self.new ≡ self.old) }
    {
        if !has_backend(self.active.backends.as_slice(), backend) {
            self.moment = moment;
            return Ok(Answer {
                told: Reply::HealthSet(false),
                kept: Reply::HealthSet(false),
            });
        }
        set_health_of(&mut self.health, self.active.number, backend, given)?;
        self.moment = moment;
        Ok(Answer {
            told: Reply::HealthSet(true),
            kept: Reply::HealthSet(true),
        })
    }

    /// Loads the VCL, where its name is free.
    pub fn load(
        &mut self,
        alloc: Global,
        moment: u64,
        source: &VclSource,
    ) -> Result<Answer, AllocError>
        requires { is_numbered (loaded (at_moment moment (bare self.old)) source.now).reply ≡ true }
        ensures ok { IfOk result (Answers (bare self.old) (bare self.new) moment (LoadCall source.now) (loaded (at_moment moment (bare self.old)) source.now)) }
        ensures err { OnErr result (self.new ≡ self.old) }
    {
        if is_taken(self.vcls.as_slice(), &source.name) {
            self.moment = moment;
            return Ok(Answer {
                told: Reply::NameTaken,
                kept: Reply::NameTaken,
            });
        }
        let number = self.next_vcl as u32;
        let vcl = Shared::new(alloc, numbered(alloc, number, source)?)?;
        self.vcls.push(LoadedVcl {
            vcl,
            is_discarded: false,
        })?;
        self.next_vcl += 1;
        self.moment = moment;
        Ok(Answer {
            told: Reply::Loaded(number),
            kept: Reply::Loaded(number),
        })
    }

    /// Makes the VCL of the name the active one.
    pub fn switch(&mut self, moment: u64, name: &Text) -> Result<Answer, AllocError>
        ensures ok { IfOk result (Answers (bare self.old) (bare self.new) moment (SwitchCall name.now) (switched (at_moment moment (bare self.old)) name.now)) }
        ensures err { OnErr result (self.new ≡ self.old) }
    {
        let vcl = match called(self.vcls.as_slice(), name) {
            Some(found) => found.vcl.copy()?,
            None => {
                self.moment = moment;
                return Ok(Answer {
                    told: Reply::NoVcl,
                    kept: Reply::NoVcl,
                });
            }
        };
        drop(mem::replace(&mut self.active, vcl));
        self.moment = moment;
        Ok(Answer {
            told: Reply::Switched,
            kept: Reply::Switched,
        })
    }

    /// Discards the VCL of the name, unless it is active.
    pub fn discard(&mut self, moment: u64, name: &Text) -> Answer
        ensures { Answers (bare self.old) (bare self.new) moment (DiscardCall name.now) (discarded (at_moment moment (bare self.old)) name.now) result }
    {
        self.moment = moment;
        let number = match called(self.vcls.as_slice(), name) {
            Some(found) => found.vcl.number,
            None => {
                return Answer {
                    told: Reply::NoVcl,
                    kept: Reply::NoVcl,
                };
            }
        };
        if number == self.active.number {
            return Answer {
                told: Reply::IsActive,
                kept: Reply::IsActive,
            };
        }
        discard(&mut self.vcls, number);
        keep_used(&mut self.vcls, &self.rounds);
        Answer {
            told: Reply::Discarded,
            kept: Reply::Discarded,
        }
    }

    /// Lists the VCLs.
    pub fn list_vcls(&mut self, alloc: Global, moment: u64) -> Result<Answer, AllocError>
        ensures ok { IfOk result (Answers (bare self.old) (bare self.new) moment VclListCall (vcls_listed (at_moment moment (bare self.old)))) }
        ensures err { OnErr result (self.new ≡ self.old) }
    {
        let lines = vcl_lines(
            alloc,
            self.active.number,
            &self.rounds,
            self.vcls.as_slice(),
        )?;
        let answer = Answer::twice(alloc, Reply::Vcls(lines))?;
        self.moment = moment;
        Ok(answer)
    }

    pub fn drop_fetch(&mut self, caller: u32, moment: u64, number: u64) -> Answer
        ensures { Answers (bare self.old) (bare self.new) moment (DropCall number) (dropped (at_moment moment (bare self.old)) caller number) result }
    {
        self.moment = moment;
        if !has_fetch(&self.fetches, caller, number) {
            return Answer {
                told: Reply::NotOpen,
                kept: Reply::NotOpen,
            };
        }
        close_fetch(&mut self.fetches, number);
        Answer {
            told: Reply::Dropped,
            kept: Reply::Dropped,
        }
    }

    pub fn end(&mut self, caller: u32, moment: u64) -> Answer
        ensures { Answers (bare self.old) (bare self.new) moment EndCall (ended (at_moment moment (bare self.old)) caller) result }
    {
        self.moment = moment;
        if !has_round(&self.rounds, caller) {
            return Answer {
                told: Reply::NoRound,
                kept: Reply::NoRound,
            };
        }
        close_round_of(&mut self.rounds, caller);
        close_fetches_of(&mut self.fetches, caller);
        keep_used(&mut self.vcls, &self.rounds);
        Answer {
            told: Reply::Ended,
            kept: Reply::Ended,
        }
    }
}

fn opening_vcl(alloc: Global, boot: &Boot) -> Result<Vcl, AllocError>
    ensures { IfOk result (λ vcl. vcl ≡ boot_vcl boot.now) }
{
    Ok(Vcl {
        number: BOOT_VCL,
        name: Text::of(alloc, b"boot")?,
        text: boot.text.copy()?,
        backends: boot.backends.copied(alloc)?,
    })
}

/// The VCL as the only one.
fn only_vcl(alloc: Global, active: &Shared<Vcl>) -> Result<Vec<LoadedVcl>, AllocError>
    ensures { IfOk result (λ vcls. vcls.items ≡ record { vcl = active.now; is_discarded = false } ∷ []) }
{
    let vcl = active.copy()?;
    let mut vcls = Vec::new(alloc);
    vcls.push(LoadedVcl {
        vcl,
        is_discarded: false,
    })?;
    Ok(vcls)
}

fn began(number: u64, vcl: &Vcl) -> Result<Reply, AllocError>
    ensures { IfOk result (λ reply. reply ≡ Began number vcl.now.number vcl.now.text) }
{
    Ok(Reply::Began {
        number,
        vcl: vcl.number,
        text: vcl.text.copy()?,
    })
}
