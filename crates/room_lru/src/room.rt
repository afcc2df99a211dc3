// Members in the order of their last use, with the sum of their sizes and an index by their ends.
ghost use Rattle.std.specs.Prelude.{◌≡◌, ◌+◌, ◌<◌, ◌^◌, ◌<ℤ◌, ◌++◌, ◌∷◌, ◌↔◌, [], IsTrue, IfOk, IfSome, IfNone, OnOk, OnErr, MatchOption, ℤ, pos, nat_eq};
ghost use Rattle.std.specs.List.{AllByRecursion};
ghost use Rattle.std.specs.Map.{lookup};
ghost use Rattle.std.specs.Option.{ForSome};
ghost use Rattle.room_lru.specs.Ends.{IsFree, EndsFirst};
ghost use Rattle.room_lru.specs.Endings.{AreEndings, with_ends};
ghost use Rattle.room_lru.specs.Members.{AreInOrder, IsLatest, total_of, used_again, with_end, without, without_all};
ghost use Rattle.room_lru.specs.Room.{AreOut, LackRoom, others};

use crate::ending::{Ending, enter_new, leave_old, set_ends};
use crate::front::first_out;
use crate::member::Member;
use std::alloc::{AllocError, Global};
use std::collections::{BTreeMap, BTreeSet};
use std::marker::Model;

/// Members of a cache by their last use. Clauses see their list, the least recently used first, each as the number of
/// its last use and the member.
#[derive(Drop)]
pub struct RoomLru {
    // by last use
    members: BTreeMap<u64, Member>,
    // by end, and by handle at one end
    ends: BTreeSet<(i128, u64)>,
    // the sum of the sizes
    total: u64,
}

impl Model for RoomLru {
    ghost use Rattle.std.specs.Prelude.{List};
    ghost use Rattle.room_lru.specs.Kept.{AreKept};
    ghost use Rattle.room_lru.specs.Members.{Used};

    ghost Value = { List Used };

    ghost view = { λ room. room.members.entries };

    ghost invariant = { λ room. AreKept room.members room.ends room.total };
}

impl RoomLru {
    /// No members. It takes no memory.
    pub fn new(alloc: Global) -> RoomLru
        ensures { result ≡ [] }
    {
        RoomLru {
            members: BTreeMap::new(alloc),
            ends: BTreeSet::new(alloc),
            total: 0,
        }
    }

    /// What all members take together, in bytes. In their list each was used before those behind it.
    pub fn total(&self) -> u64
        ensures sum { result ≡ total_of self.now }
        ensures in_order { AreInOrder self.now }
    {
        self.total
    }

    /// Whether the use is later than those of all members.
    pub fn is_latest(&self, used: u64) -> bool
        ensures { IsTrue result ↔ IsLatest used self.now }
    {
        match self.members.last_key_value() {
            Some((latest, _)) => *latest < used,
            None => true,
        }
    }

    /// Whether no member has both this end and this handle.
    pub fn is_free(&self, end: i128, handle: u64) -> bool
        ensures { IsTrue result ↔ IsFree (end, handle) self.now }
    {
        !self.ends.contains(&(end, handle))
    }

    /// Puts one more member last, whose use is later than those of all others. Where memory is wanting, the members are
    /// as before.
    pub fn put_last(&mut self, used: u64, member: Member) -> Result<(), AllocError>
        requires latest { IsLatest used self.old }
        requires free { IsFree (member.end, member.handle) self.old }
        requires fits { total_of self.old + member.size < 2 ^ 64 }
        ensures ok { OnOk result (self.new ≡ self.old ++ (used, member) ∷ []) }
        ensures err { OnErr result (self.new ≡ self.old) }
    {
        self.ends.insert((member.end, member.handle))?;
        if self.members.insert(used, member).is_err() {
            self.ends.remove(&(member.end, member.handle));
            return Err(AllocError);
        }
        self.total += member.size;
        Ok(())
    }

    /// Takes the member of this last use out, and gives it. None where there is no such member. It takes no memory.
    pub fn take(&mut self, used: u64) -> Option<Member>
        ensures found { result ≡ lookup (nat_eq used) self.old }
        ensures rest { self.new ≡ without used self.old }
    {
        let member = self.members.remove(&used)?;
        self.ends.remove(&(member.end, member.handle));
        self.total -= member.size;
        Some(member)
    }

    /// Takes the members of these last uses out, as far as they are there. It takes no memory.
    pub fn drop_all(&mut self, uses: &[u64])
        ensures { self.new ≡ without_all uses.now self.old }
    {
        for used in uses {
            self.take(*used);
        }
    }

    /// The member of this last use.
    pub fn get(&self, used: u64) -> Option<Member>
        ensures { result ≡ lookup (nat_eq used) self.now }
    {
        self.members.get(&used).copied()
    }

    /// Gives the member of this last use a later one than those of all members, with which it comes last. Where there is
    /// no such member all stays, and so it does where memory is wanting.
    pub fn move_use(&mut self, used: u64, later: u64) -> Result<(), AllocError>
        requires { IsLatest later self.old }
        ensures ok { OnOk result (self.new ≡ used_again used later self.old) }
        ensures err { OnErr result (self.new ≡ self.old) }
    {
        let Some(member) = self.members.get(&used).copied() else {
            return Ok(());
        };
        self.members.insert(later, member)?;
        self.members.remove(&used);
        Ok(())
    }

    /// Gives the member of this last use another end, which no other member of its handle has. Where there is no such
    /// member all stays, and so it does where memory is wanting.
    pub fn move_end(&mut self, used: u64, end: i128) -> Result<(), AllocError>
        requires { ForSome (lookup (nat_eq used) self.old) (λ member. IsFree (end, member.handle) (without used self.old)) }
        ensures ok { OnOk result (self.new ≡ with_end used end self.old) }
        ensures err { OnErr result (self.new ≡ self.old) }
    {
        let Some(member) = self.members.get_mut(&used) else {
            return Ok(());
        };
        if member.end != end {
            self.ends.insert((end, member.handle))?;
            self.ends.remove(&(member.end, member.handle));
            member.end = end;
        }
        Ok(())
    }

    /// Gives several members other ends, of which no member has one with the same handle. Where memory is wanting all stay as
    /// they were.
    pub fn move_ends(&mut self, endings: &[Ending]) -> Result<(), AllocError>
        requires { AreEndings self.old endings.now }
        ensures ok { OnOk result (self.new ≡ with_ends endings.now self.old) }
        ensures err { OnErr result (self.new ≡ self.old) }
    {
        enter_new(&mut self.ends, endings)?;
        leave_old(&mut self.ends, endings);
        set_ends(&mut self.members, endings);
        Ok(())
    }

    /// The handle of a member that is over at the moment, in milliseconds since 1970: of the one that ended first, and
    /// of several that ended then the least. None where no member is over.
    pub fn expired(&self, moment: u64) -> Option<u64>
        ensures over { IfSome result (λ handle. (end : ℤ) × EndsFirst moment self.now (end, handle)) }
        ensures none { IfNone result (AllByRecursion (λ member. pos moment <ℤ member.1.end) self.now) }
    {
        let (end, handle) = self.ends.first()?;
        if *end <= i128::from(moment) {
            return Some(*handle);
        }
        None
    }

    /// The handles of the members that have to go for a new one of this size, where they are to take no more than the
    /// room together: the least recently used, as many as are needed. The new one replaces the member of the last use
    /// `but`, if one is given, which is no longer counted and doesn't go. None where more than 50 would have to go, or
    /// the new one is larger than the room. It looks at 52 members at most.
    pub fn least_out(
        &self,
        alloc: Global,
        but: Option<u64>,
        room: u64,
        size: u64,
    ) -> Result<Option<Vec<u64>>, AllocError>
        ensures { IfOk result (λ out. MatchOption out
            (LackRoom room size (others but self.now))
            (λ handles. AreOut room size (others but self.now) handles.items)) }
    {
        if room < size {
            return Ok(None);
        }
        let left = self.total - self.size_of(but);
        first_out(&self.members, alloc, but, left, room, size)
    }

    // What the member of this last use takes, or 0 where there is none.
    fn size_of(&self, used: Option<u64>) -> u64
        ensures { result + total_of (others used self.now) ≡ total_of self.now }
    {
        let Some(used) = used else {
            return 0;
        };
        match self.members.get(&used) {
            Some(member) => member.size,
            None => 0,
        }
    }
}
