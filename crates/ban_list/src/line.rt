// A line of a list of bans.
ghost use Rattle.std.specs.Prelude.{◌≡◌, true, IfOk};
ghost use Rattle.std.specs.Option.{option_copied};
ghost use Rattle.cache_law.specs.Bans.{ban_matches, object_only as looks_at_objects};
ghost use Rattle.cache_law.specs.BansAtOnce.{open_line};
ghost use Rattle.ban_list.specs.Keys.{equal_key};

use crate::keys::key_of;
use ban_expr::{Prepared, object_only, prepare};
use cache_law::{Ban, BanLine, Issued, Object, RequestView};
use std::alloc::{AllocError, Global};
use std::marker::Model;
use units::{Shared, Text};

/// A ban that is kept, made ready to be tested. Clauses see the line that the list of bans shows of it.
#[derive(Drop)]
pub struct Line {
    number: u64,
    moment: u64,
    ban: Prepared,
    key: Option<Text>,
    completed: bool,
}

impl Model for Line {
    ghost use Rattle.std.specs.Prelude.{◌≡◌};
    ghost use Rattle.cache_law.specs.declared.ban.BanLine.{BanLine as Shown};
    ghost use Rattle.ban_list.specs.Keys.{equal_key};

    ghost Value = { Shown };

    ghost view = { λ line. record { issued = record { number = line.number; moment = line.moment; ban = line.ban }; completed = line.completed } };

    ghost invariant = { λ line. line.key ≡ equal_key line.ban };
}

impl Line {
    /// The ban, issued at the moment under the number, and not completed.
    pub(crate) fn new(
        alloc: Global,
        number: u64,
        moment: u64,
        ban: &Shared<Ban>,
    ) -> Result<Line, AllocError>
        ensures { IfOk result (λ line. line ≡ open_line (record { number = number; moment = moment; ban = ban.now })) }
    {
        Ok(Line {
            number,
            moment,
            ban: prepare(alloc, ban)?,
            key: key_of(alloc, ban)?,
            completed: false,
        })
    }

    pub fn number(&self) -> u64
        ensures { result ≡ self.now.issued.number }
    {
        self.number
    }

    /// When the ban was issued.
    pub fn moment(&self) -> u64
        ensures { result ≡ self.now.issued.moment }
    {
        self.moment
    }

    pub fn ban(&self) -> &Shared<Ban>
        ensures { result.now ≡ self.now.issued.ban }
    {
        self.ban.ban()
    }

    /// Whether a later equal ban does the work of this one.
    pub fn is_completed(&self) -> bool
        ensures { result ≡ self.now.completed }
    {
        self.completed
    }

    /// Whether the ban looks at objects alone, so that marks count for it and not places.
    pub fn is_object_only(&self) -> bool
        ensures { result ≡ looks_at_objects self.now.issued.ban }
    {
        object_only(self.ban.ban())
    }

    /// Whether the ban matches the object with the request. Hand the request unless the ban looks at objects alone:
    /// without one its fields count as absent.
    pub fn test(
        &self,
        alloc: Global,
        object: &Object,
        request: Option<&RequestView>,
    ) -> Result<bool, AllocError>
        ensures { IfOk result (λ matched. matched ≡ ban_matches self.now.issued.ban self.now.issued.moment object.now (option_copied request.entry)) }
    {
        self.ban.test(alloc, self.moment, object, request)
    }

    /// The line as a reply shows it.
    pub fn shown(&self) -> Result<BanLine, AllocError>
        ensures { IfOk result (λ shown. shown ≡ self.now) }
    {
        Ok(BanLine {
            issued: Issued {
                number: self.number,
                moment: self.moment,
                ban: self.ban.ban().copy()?,
            },
            completed: self.completed,
        })
    }

    /// The key that equal bans have.
    pub(crate) fn key(&self) -> Option<&Text>
        ensures { option_copied result ≡ equal_key self.now.issued.ban }
    {
        self.key.as_ref()
    }

    pub(crate) fn complete(&mut self)
        ensures { self.new ≡ record self.old { completed = true } }
    {
        self.completed = true;
    }
}
