// The shelf of the plain cache: its bans and objects as lists in memory.
ghost use Rattle.std.specs.Prelude.{◌≡◌, ◌+◌};
ghost use Rattle.flat_core.specs.Scans.{seen_all};
ghost use Rattle.flat_core.specs.Shelf.{StandsFor, stock_in};
ghost use Rattle.flat_core.specs.Rests.{rests_so};

use crate::banning::{ban_fates, ban_lines, keep_needed};
use crate::listing::lacks;
use crate::lists::{is_gone, keep_in_time, put_first, settle, use_one};
use crate::purging::{count_of_key, count_of_xkeys, drop_key, drop_xkeys, softened_all};
use crate::room::bound_of;
use crate::scan::scan;
use crate::stored_ban::StoredBan;
use crate::stored_object::{Fate, StoredObject};
use ban_expr::prepare;
use ban_lurker::{Chore, Verdict};
use cache_frame::{ListingShelf, Placing, Seen, Shelf, Use};
use cache_law::{Ban, BanLine, Object, Query, is_in_time};
use std::alloc::{AllocError, Global};
use std::collections::VecDeque;
use std::marker::Model;
use std::mem;
use units::{Sequence, Shared, Text, out_of_memory};

/// The bans that were issued and the objects, the newest of each first. Objects that aren't in time any more stand here until the
/// next insertion.
#[derive(Drop)]
pub struct FlatShelf {
    // how many bans were issued
    issued: u64,
    bans: VecDeque<StoredBan>,
    objects: VecDeque<StoredObject>,
}

impl Model for FlatShelf {
    ghost use Rattle.flat_core.specs.Shelf.{Stored};

    ghost Value = { Stored };

    ghost view = { λ s. record { issued = s.issued; bans = s.bans.items; objects = s.objects.items } };
}

impl Shelf for FlatShelf {
    type Marks = Sequence<Fate>;

    ghost stock = { λ shelf. stock_in shelf };

    ghost Stands = { λ shelf beginning entries. StandsFor shelf beginning entries };

    ghost IsMarked = { λ shelf moment query fates. fates ≡ (seen_all moment query shelf.issued shelf.bans shelf.objects).fates };

    ghost unswept = { λ shelf. 0 };

    fn empty(alloc: Global) -> Result<FlatShelf, AllocError> {
        Ok(FlatShelf {
            issued: 0,
            bans: VecDeque::new(alloc),
            objects: VecDeque::new(alloc),
        })
    }

    fn look(
        &self,
        alloc: Global,
        moment: u64,
        query: &Query,
    ) -> Result<Seen<Sequence<Fate>>, AllocError> {
        let seen = scan(alloc, &self.objects, self.issued, &self.bans, moment, query)?;
        Ok(Seen {
            fresh: seen.fresh,
            grace: seen.grace,
            stale: seen.stale,
            marks: seen.fates,
        })
    }

    fn take(
        &mut self,
        used: u64,
        moment: u64,
        _query: &Query,
        marks: Sequence<Fate>,
        used_as: Use,
    ) -> Result<(), AllocError> {
        settle(&mut self.objects, marks.as_slice(), self.issued);
        drop(marks);
        use_one(&mut self.objects, moment, used, used_as);
        Ok(())
    }

    fn is_gone(&self, _alloc: Global, moment: u64, stale: Option<u64>) -> Result<bool, AllocError> {
        Ok(is_gone(&self.objects, moment, stale))
    }

    fn insert(
        &mut self,
        _alloc: Global,
        room: u64,
        used: u64,
        moment: u64,
        token: u64,
        object: &Shared<Object>,
        stale: Option<u64>,
    ) -> Placing {
        if !is_in_time(moment, object) {
            return Placing::NotInTime;
        }
        keep_in_time(&mut self.objects, moment);
        let Some(bound) = bound_of(&self.objects, stale, object, room) else {
            return Placing::NoRoom;
        };
        let count = self.issued;
        let put = put_first(&mut self.objects, used, token, object, stale, bound, count);
        if put.is_err() {
            return Placing::Refused;
        }
        Placing::Stored
    }

    fn ban(&mut self, alloc: Global, moment: u64, ban: &Shared<Ban>) -> Result<(), AllocError> {
        let prepared = prepare(alloc, ban)?;
        let fates = match ban_fates(alloc, moment, &prepared, &self.objects) {
            Ok(fates) => fates,
            Err(_) => return Err(out_of_memory(prepared)),
        };
        let stored = StoredBan::new(self.issued + 1, moment, prepared);
        if self.bans.push_front(stored).is_err() {
            return Err(out_of_memory(fates));
        }
        self.issued += 1;
        settle(&mut self.objects, fates.as_slice(), self.issued);
        Ok(())
    }

    fn ban_lines(&self, alloc: Global, _moment: u64) -> Result<Sequence<BanLine>, AllocError> {
        ban_lines(alloc, &self.bans)
    }

    fn purge(
        &mut self,
        _alloc: Global,
        moment: u64,
        key: &Sequence<Text>,
    ) -> Result<u64, AllocError> {
        let count = count_of_key(&self.objects, moment, key.as_slice()) as u64;
        drop_key(&mut self.objects, moment, key.as_slice());
        Ok(count)
    }

    fn purge_by(
        &mut self,
        alloc: Global,
        moment: u64,
        keys: &Sequence<Text>,
        soft: bool,
    ) -> Result<u64, AllocError> {
        let count = count_of_xkeys(&self.objects, moment, keys.as_slice()) as u64;
        if soft {
            let left = softened_all(alloc, moment, keys.as_slice(), &self.objects)?;
            drop(mem::replace(&mut self.objects, left));
            return Ok(count);
        }
        drop_xkeys(&mut self.objects, moment, keys.as_slice());
        Ok(count)
    }

    fn cut(&mut self, _alloc: Global, moment: u64) -> Result<(), AllocError> {
        keep_in_time(&mut self.objects, moment);
        keep_needed(&mut self.bans, &self.objects);
        Ok(())
    }

    fn lurk(&mut self, _alloc: Global, _moment: u64, _count: u32) -> Result<u32, AllocError> {
        Ok(0)
    }

    fn chore(&self, _alloc: Global, _moment: u64) -> Result<Option<Chore>, AllocError> {
        Ok(None)
    }

    fn settle(&mut self, _verdict: Verdict) -> bool {
        false
    }

    ghost counts = { λ shelf beginning entries stands. stands.issued };

    ghost rests = { λ shelf. rests_so shelf };
}

impl ListingShelf for FlatShelf {
    fn shows(&self, moment: u64, lines: &[BanLine]) -> bool {
        !lacks(&self.objects, &self.bans, moment, lines)
    }
}
