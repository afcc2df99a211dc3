// Places at which a test holds a run.

/// Where a run may be held. A connection reaches `Called` before and `Answered` after each call of the shared cache, and
/// `BeforeExchange` and `AfterExchange` round each exchange with a backend; the lurker reaches `Settled` behind an errand that
/// settled.
#[derive(Clone, Copy, Debug, PartialEq, Eq)]
pub enum Place {
    Called,
    Answered,
    BeforeExchange,
    AfterExchange,
    Settled,
}

/// What holds a run at its places. It has no meaning: no clause knows of it.
pub trait Gate {
    fn point(&self, caller: u32, place: Place);
}

/// A gate that holds nothing, for a program.
#[derive(Clone, Copy, Debug, Default)]
pub struct OpenGate;

impl Gate for OpenGate {
    fn point(&self, _caller: u32, _place: Place) {}
}
