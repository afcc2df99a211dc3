// The table's rule, and what each step on it tells.
ghost use Rattle.turnstile.specs.Knowledge.{opened};
ghost use Rattle.turnstile.specs.Turns.{TakesTurns};
ghost use Rattle.turnstile.specs.Steps.{idle, spent, drawn, looked, passed, left, noted, told, cut_view, branch_view, joined};

use crate::chronicle::Chronicle;
use crate::knowledge::View;
use atomic_table::{Join, Play, Split, TableRule};
use std::marker::PhantomData;
use std::snapshot::Snapshot;

/// What the table is told when it is made: the first pass's number, and the value.
pub struct Key<T> {
    pub first: u64,
    pub value: Snapshot<T>,
}

impl<T> Drop for Key<T> {
    fn drop(self) {
        let Key { first: _, value: _ } = self;
    }
}

pub struct Turns<T> {
    value: PhantomData<T>,
}

impl<T: Chronicle> TableRule<Option<T>, View<T::Entry, T::Setting>, Key<T>> for Turns<T> {
    ghost holds = { λ key. TakesTurns T.caller T.history T.setting T.Sound key.first (T.setting key.value.value) };

    ghost first = { λ key. idle (opened key.first (T.setting key.value.value)) };
}

/// Draws a ticket.
pub(crate) struct Draw<T> {
    value: PhantomData<T>,
}

impl<T: Chronicle> Play<Option<T>, View<T::Entry, T::Setting>> for Draw<T> {
    ghost then = { λ _. drawn };
}

/// Looks at the ticket that is served, and takes the slot where it is the thread's own.
pub(crate) struct Look<T> {
    value: PhantomData<T>,
}

impl<T: Chronicle> Play<Option<T>, View<T::Entry, T::Setting>> for Look<T> {
    ghost then = { λ _. looked T.caller T.history T.setting T.Sound };
}

/// Gives the slot home and passes the turn on.
pub(crate) struct PassOn<T> {
    value: PhantomData<T>,
}

impl<T: Chronicle> Play<Option<T>, View<T::Entry, T::Setting>> for PassOn<T> {
    ghost then = { λ _. passed T.history };
}

/// Gives the slot home and keeps the turn.
pub(crate) struct Leave<T> {
    value: PhantomData<T>,
}

impl<T: Chronicle> Play<Option<T>, View<T::Entry, T::Setting>> for Leave<T> {
    ghost then = { λ _. left };
}

/// Notes the number to split off.
pub(crate) struct Note<T> {
    value: PhantomData<T>,
}

impl<T: Chronicle> Play<Option<T>, View<T::Entry, T::Setting>> for Note<T> {
    ghost then = { noted };
}

/// Tells a pass what two had seen that became one.
pub(crate) struct Tell<T> {
    value: PhantomData<T>,
}

impl<T: Chronicle> Play<Option<T>, View<T::Entry, T::Setting>> for Tell<T> {
    ghost then = { λ _. told T.caller };
}

/// Splits off the number that was noted.
pub(crate) struct Cut;

impl<E, G> Split<View<E, G>> for Cut {
    ghost left = { cut_view };

    ghost right = { branch_view };
}

/// Joins one pass into another.
pub(crate) struct Merge<T> {
    value: PhantomData<T>,
}

impl<T: Chronicle> Join<View<T::Entry, T::Setting>> for Merge<T> {
    ghost both = { joined T.caller };

    ghost spent = { spent };
}
