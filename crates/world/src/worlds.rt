// The whole outside of a server.
ghost use Rattle.std.specs.Prelude.{◌≡◌, ◌≤◌, ◌||◌, ℕ, Bool, List, [], ◌∷◌, false, IfOk, OnErr, OnOk};
ghost use Rattle.std.specs.declared.option.Option.{Option};
ghost use Rattle.wire.specs.Causes.{HasCause, next_count};
ghost use Rattle.wire.specs.Calls.{joined_count};
ghost use Rattle.wire.specs.Talks.{Adds};
ghost use Rattle.world.specs.Keeping.{IsNothingYet, IsUntold, MayAdd};
ghost use Rattle.world.specs.declared.file.File.{File as Filed};
ghost use Rattle.world.specs.declared.kit.Kit.{Kit as Tools};

use crate::{Kit, Listener, Shelf};
use std::alloc::AllocError;
use wire::{Clock, Dialer, Failed};

/// The outside of a server: where it listens, its files, what its threads work with, and what is handed back at their end.
pub trait World: Drop {
    type Listener: Listener;

    type Dialer: Dialer + Drop + Send;

    type Clock: Clock + Drop + Send;

    type Shelf: Shelf + Drop + Send;

    /// The ports that were asked for, in that order, where they are told.
    ghost ports: { Self → Option (List ℕ) };

    /// The accepted connections that were handed back, in that order, where they are told.
    ghost links: { Self → Option (List Self.Listener.Link) };

    /// How many these are; the greatest count stands for all beyond.
    ghost kept: { Self → ℕ };

    /// How many connections the listeners gave that were handed back; the greatest count stands for all beyond.
    ghost given: { Self → ℕ };

    /// The kits that were handed back, in that order, where they are told.
    ghost kits: { Self → Option (List (Tools Self.Dialer Self.Clock)) };

    /// The files of its shelves, where they are told.
    ghost files: { Self → Option (List Filed) };

    /// How often a call of `listen`, or of a listener that was handed back, failed; the greatest count stands for all beyond.
    ghost listen_faults: { Self → ℕ };

    /// How often a file couldn't be read at a shelf that was handed back, in the same way.
    ghost shelf_faults: { Self → ℕ };

    /// A listener that was handed back said that no connection comes any more.
    ghost ended: { Self → Bool };

    /// A listener at that port. Where memory is wanting, which is a failure too, the port may not be told.
    fn listen(&mut self, port: u16) -> Result<Self::Listener, Failed>
        ensures none { IfOk result (λ listener. Self.Listener.faults listener ≡ 0) }
        ensures given_none { IfOk result (λ listener. Self.Listener.given listener ≡ 0) }
        ensures going { IfOk result (λ listener. Self.Listener.ended listener ≡ false) }
        ensures cause { HasCause (listen_faults self.old) (listen_faults self.new) result }
        ensures port { OnOk result (Adds (ports self.old) (ports self.new) (port ∷ [])) }
        ensures asked { OnErr result (MayAdd (ports self.old) (ports self.new) port) }
        ensures links { links self.new ≡ links self.old }
        ensures kept { kept self.new ≡ kept self.old }
        ensures given { given self.new ≡ given self.old }
        ensures kits { kits self.new ≡ kits self.old }
        ensures files { files self.new ≡ files self.old }
        ensures shelves { shelf_faults self.new ≡ shelf_faults self.old }
        ensures ended { ended self.new ≡ ended self.old };

    /// A shelf of the world's files, at which nothing failed yet.
    fn shelf(&mut self) -> Result<Self::Shelf, AllocError>
        ensures shelved { IfOk result (λ shelf. Self.Shelf.files shelf ≡ files self.old) }
        ensures none { IfOk result (λ shelf. Self.Shelf.faults shelf ≡ 0) }
        ensures ports { ports self.new ≡ ports self.old }
        ensures links { links self.new ≡ links self.old }
        ensures kept { kept self.new ≡ kept self.old }
        ensures given { given self.new ≡ given self.old }
        ensures kits { kits self.new ≡ kits self.old }
        ensures files { files self.new ≡ files self.old }
        ensures listens { listen_faults self.new ≡ listen_faults self.old }
        ensures shelves { shelf_faults self.new ≡ shelf_faults self.old }
        ensures ended { ended self.new ≡ ended self.old };

    /// A dialer and a clock of which nothing was asked yet.
    fn kit(&mut self) -> Result<Kit<Self::Dialer, Self::Clock>, AllocError>
        ensures talks { IfOk result (λ kit. IsNothingYet (Self.Dialer.talks kit.dialer)) }
        ensures dials { IfOk result (λ kit. Self.Dialer.dial_faults kit.dialer ≡ 0) }
        ensures reads { IfOk result (λ kit. Self.Dialer.read_faults kit.dialer ≡ 0) }
        ensures writes { IfOk result (λ kit. Self.Dialer.write_faults kit.dialer ≡ 0) }
        ensures readings { IfOk result (λ kit. IsUntold (Self.Clock.readings kit.clock)) }
        ensures words { IfOk result (λ kit. IsUntold (Self.Clock.words kit.clock)) }
        ensures ports { ports self.new ≡ ports self.old }
        ensures links { links self.new ≡ links self.old }
        ensures kept { kept self.new ≡ kept self.old }
        ensures given { given self.new ≡ given self.old }
        ensures kits { kits self.new ≡ kits self.old }
        ensures files { files self.new ≡ files self.old }
        ensures listens { listen_faults self.new ≡ listen_faults self.old }
        ensures shelves { shelf_faults self.new ≡ shelf_faults self.old }
        ensures ended { ended self.new ≡ ended self.old };

    /// Takes an accepted connection back that was ended. It takes no memory.
    fn keep_link(&mut self, link: <Self::Listener as Listener>::Link)
        requires closed { Self.Listener.Link.is_open link ≡ false }
        ensures link { Adds (links self.old) (links self.new) (link ∷ []) }
        ensures kept { kept self.new ≡ next_count (kept self.old) }
        ensures given { given self.new ≡ given self.old }
        ensures ports { ports self.new ≡ ports self.old }
        ensures kits { kits self.new ≡ kits self.old }
        ensures files { files self.new ≡ files self.old }
        ensures listens { listen_faults self.new ≡ listen_faults self.old }
        ensures shelves { shelf_faults self.new ≡ shelf_faults self.old }
        ensures ended { ended self.new ≡ ended self.old };

    /// Takes a kit back. It takes no memory.
    fn keep_kit(&mut self, kit: Kit<Self::Dialer, Self::Clock>)
        ensures kit { Adds (kits self.old) (kits self.new) (kit ∷ []) }
        ensures ports { ports self.new ≡ ports self.old }
        ensures links { links self.new ≡ links self.old }
        ensures kept { kept self.new ≡ kept self.old }
        ensures given { given self.new ≡ given self.old }
        ensures files { files self.new ≡ files self.old }
        ensures listens { listen_faults self.new ≡ listen_faults self.old }
        ensures shelves { shelf_faults self.new ≡ shelf_faults self.old }
        ensures ended { ended self.new ≡ ended self.old };

    /// Takes a listener back, and what it counted: its faults among those of `listen`, and the connections that it gave. It
    /// takes no memory.
    fn retire(&mut self, listener: Self::Listener)
        ensures listens { listen_faults self.new ≡ joined_count (listen_faults self.old) (Self.Listener.faults listener) }
        ensures later { listen_faults self.old ≤ listen_faults self.new }
        ensures given { given self.new ≡ joined_count (given self.old) (Self.Listener.given listener) }
        ensures gave_none { Self.Listener.given listener ≡ 0 → given self.new ≡ given self.old }
        ensures ended { ended self.new ≡ (Self.Listener.ended listener || ended self.old) }
        ensures ports { ports self.new ≡ ports self.old }
        ensures links { links self.new ≡ links self.old }
        ensures kept { kept self.new ≡ kept self.old }
        ensures kits { kits self.new ≡ kits self.old }
        ensures files { files self.new ≡ files self.old }
        ensures shelves { shelf_faults self.new ≡ shelf_faults self.old };

    /// Takes a shelf back, and its faults among those of the shelves before it. It takes no memory.
    fn retire_shelf(&mut self, shelf: Self::Shelf)
        ensures shelves { shelf_faults self.new ≡ joined_count (shelf_faults self.old) (Self.Shelf.faults shelf) }
        ensures later { shelf_faults self.old ≤ shelf_faults self.new }
        ensures ports { ports self.new ≡ ports self.old }
        ensures links { links self.new ≡ links self.old }
        ensures kept { kept self.new ≡ kept self.old }
        ensures given { given self.new ≡ given self.old }
        ensures kits { kits self.new ≡ kits self.old }
        ensures files { files self.new ≡ files self.old }
        ensures listens { listen_faults self.new ≡ listen_faults self.old }
        ensures ended { ended self.new ≡ ended self.old };
}
