// Bans in the order of their issue, with the objects that stand among them.
ghost use Rattle.std.specs.Prelude.{◌≡◌, ◌+◌, ◌-◌, ◌<◌, ◌^◌, ◌∷◌, ◌++◌, [], ℕ, List, true, not, length, get_or, slice_get, IfOk, OnOk, OnErr};
ghost use Rattle.cache_law.specs.declared.ban.BanLine.{BanLine as Shown};
ghost use Rattle.std.specs.Option.{option_copied};
ghost use Rattle.std.specs.Str.{bytes_eq};
ghost use Rattle.std.specs.VecDeque.{deque_len};
ghost use Rattle.indexmap.specs.IndexMap.{get};
ghost use Rattle.cache_law.specs.Bans.{object_only as looks_at_objects};
ghost use Rattle.ban_list.specs.Keys.{equal_key, same_key};
ghost use Rattle.ban_list.specs.Bans.{IsCut, are_needed, counts_left, cut_to, departed, entered, is_needed as is_needed_at, is_wanted, line_before, lines_left, newer, no_bans, only_needed, standing, with_ban};
ghost use Rattle.ban_list.specs.Kept.{AreCompleted, AreFalling, AreFew, IsIndexOf, IsSame, IsWhole, Puts, Forgets, ForgetsUnless, completed_at, found_under};

use crate::counts::{add_one, join_last, take_one, turn_last};
use crate::line::Line;
use cache_law::{Ban, BanLine};
use indexmap::IndexMap;
use std::alloc::{AllocError, Global};
use std::collections::VecDeque;
use std::marker::Model;
use units::{Sequence, Shared, Text};

/// Where an object stands among the bans, by their numbers.
#[derive(Clone, Copy, Debug, PartialEq, Eq)]
pub struct Stand {
    /// The newest ban that the object was tested on or inserted behind, and 0 for none. It has still to be tested on
    /// the newer ones that look at requests.
    pub place: u64,
    /// The same for the bans that look at objects alone.
    pub mark: u64,
}

/// The bans that are kept, the newest first, and how many objects stand where among them.
#[derive(Drop)]
pub struct BanList {
    issued: u64,
    lines: VecDeque<Line>,
    // the number of the newest ban that has the key
    equals: IndexMap<Text, u64>,
    placed: VecDeque<u64>,
    marked: VecDeque<u64>,
    objects: u64,
}

impl Model for BanList {
    ghost use Rattle.std.specs.Prelude.{◌+◌};
    ghost use Rattle.ban_list.specs.Bans.{Bans};
    ghost use Rattle.ban_list.specs.Kept.{AreCompleted, AreCounts, AreFalling, IsIndexOf};

    ghost Value = { Bans };

    ghost view = { λ bans. record { issued = bans.issued; lines = bans.lines.items; placed = bans.placed.items; marked = bans.marked.items; objects = bans.objects } };

    ghost invariant = { λ bans.
        AreFalling (bans.issued + 1) bans.lines.items
        × AreCompleted bans.lines.items
        × IsIndexOf bans.lines.items bans.equals
        × AreCounts bans.lines.items bans.placed.items bans.objects
        × AreCounts bans.lines.items bans.marked.items bans.objects };
}

impl BanList {
    /// No bans and no objects.
    pub fn new(alloc: Global) -> Result<BanList, AllocError>
        ensures { IfOk result (λ bans. bans ≡ no_bans) }
    {
        let mut placed = VecDeque::new(alloc);
        placed.push_back(0)?;
        let mut marked = VecDeque::new(alloc);
        marked.push_back(0)?;
        Ok(BanList {
            issued: 0,
            lines: VecDeque::new(alloc),
            equals: IndexMap::new(alloc),
            placed,
            marked,
            objects: 0,
        })
    }

    /// How many bans were issued, which is the number of the newest. Along the lines the numbers fall.
    pub fn issued(&self) -> u64
        ensures count { result ≡ self.now.issued }
        ensures in_order { AreFalling (self.now.issued + 1) self.now.lines }
    {
        self.issued
    }

    pub fn len(&self) -> usize
        ensures { result ≡ length self.now.lines }
    {
        self.lines.len()
    }

    /// The line that has so many newer ones before it.
    pub fn line(&self, at: usize) -> Option<&Line>
        ensures { option_copied result ≡ slice_get self.now.lines at }
    {
        self.lines.get(at)
    }

    /// How many lines are of newer bans than that of the number: those that an object of this place, or mark, has still
    /// to be tested on. The list is searched by halves.
    pub fn count_newer(&self, number: u64) -> usize
        ensures { result ≡ newer number self.now.lines }
    {
        newer_in(&self.lines, number)
    }

    /// Issues the ban at the moment, under the next number, and completes those that it equals. No object counts at it.
    /// For want of memory all is as before.
    pub fn issue(&mut self, alloc: Global, moment: u64, ban: &Shared<Ban>) -> Result<(), AllocError>
        requires { self.old.issued + 1 < 2 ^ 64 }
        ensures ok { OnOk result (self.new ≡ with_ban (self.old.issued + 1) moment ban.now self.old) }
        ensures err { OnErr result (self.new ≡ self.old) }
    {
        let number = self.issued + 1;
        self.put_first(alloc, number, moment, ban)
    }

    /// Puts a ban first that was issued at the moment under this number, which is above those of all others, and
    /// completes those that it equals. No object counts at it. For want of memory all is as before.
    pub fn put_first(
        &mut self,
        alloc: Global,
        number: u64,
        moment: u64,
        ban: &Shared<Ban>,
    ) -> Result<(), AllocError>
        requires { self.old.issued < number }
        ensures ok { OnOk result (self.new ≡ with_ban number moment ban.now self.old) }
        ensures err { OnErr result (self.new ≡ self.old) }
    {
        let line = Line::new(alloc, number, moment, ban)?;
        self.lines.try_reserve(1)?;
        self.placed.try_reserve(1)?;
        self.marked.try_reserve(1)?;
        let earlier = put_key(&mut self.equals, &line, number)?;
        self.lines.push_front_reserved(line);
        complete(&mut self.lines, earlier);
        self.placed.push_front_reserved(0);
        self.marked.push_front_reserved(0);
        self.issued = number;
        Ok(())
    }

    /// How many objects there are.
    pub fn objects(&self) -> u64
        ensures { result ≡ self.now.objects }
    {
        self.objects
    }

    /// How many objects count where one of this place does.
    pub fn placed_at(&self, place: u64) -> u64
        ensures { result ≡ standing place self.now.lines self.now.placed }
    {
        self.placed[self.count_newer(place)]
    }

    /// How many objects count where one of this mark does.
    pub fn marked_at(&self, mark: u64) -> u64
        ensures { result ≡ standing mark self.now.lines self.now.marked }
    {
        self.marked[self.count_newer(mark)]
    }

    /// Counts one more object, which stands there. It takes no memory.
    pub fn enter(&mut self, stand: Stand)
        requires { self.old.objects + 1 < 2 ^ 64 }
        ensures { self.new ≡ entered stand.place stand.mark self.old }
    {
        let place = newer_in(&self.lines, stand.place);
        let mark = newer_in(&self.lines, stand.mark);
        add_one(&mut self.placed, place);
        add_one(&mut self.marked, mark);
        self.objects += 1;
    }

    /// Counts one object less, which stood there. It takes no memory.
    pub fn depart(&mut self, stand: Stand)
        requires place { 0 < standing stand.place self.old.lines self.old.placed }
        requires mark { 0 < standing stand.mark self.old.lines self.old.marked }
        ensures { self.new ≡ departed stand.place stand.mark self.old }
    {
        let place = newer_in(&self.lines, stand.place);
        let mark = newer_in(&self.lines, stand.mark);
        take_one(&mut self.placed, place);
        take_one(&mut self.marked, mark);
        self.objects -= 1;
    }

    /// Takes out the oldest lines as far as nothing needs them. What counted at them counts below all lines then.
    pub fn cut(&mut self)
        ensures { IsCut self.old self.new }
    {
        while self.is_oldest_spare() {
            self.drop_oldest();
        }
    }

    // Whether there is an oldest line, and nothing needs it.
    fn is_oldest_spare(&self) -> bool
        ensures whole { IsWhole self.now }
        ensures there { result ≡ true → 0 < length self.now.lines }
        ensures needed { 0 < length self.now.lines → is_needed_at self.now (length self.now.lines - 1) ≡ not result }
    {
        match self.lines.back() {
            Some(line) => !is_wanted(line, last_of(&self.placed), last_of(&self.marked)),
            None => false,
        }
    }

    fn drop_oldest(&mut self)
        requires { 0 < length self.old.lines }
        ensures { self.new ≡ cut_to (length self.old.lines - 1) self.old }
    {
        if let Some(line) = self.lines.pop_back() {
            forget(&mut self.equals, &line);
            let_go(line);
            join_last(&mut self.placed);
            join_last(&mut self.marked);
        }
    }

    /// Takes out all lines that nothing needs, wherever they stand. What counted at one counts at the next older one
    /// that is left, or below all. It goes over the whole list and takes no memory.
    pub fn keep_needed(&mut self)
        ensures { self.new ≡ only_needed self.old }
    {
        keep_needed(
            &mut self.lines,
            &mut self.equals,
            &mut self.placed,
            &mut self.marked,
        );
    }

    /// The lines as a reply shows them.
    pub fn shown(&self, alloc: Global) -> Result<Sequence<BanLine>, AllocError>
        ensures { IfOk result (λ lines. lines ≡ self.now.lines) }
    {
        let mut lines = Sequence::new(alloc);
        for at in 0..self.lines.len() {
            lines.push(self.lines[at].shown()?)?;
        }
        Ok(lines)
    }
}

fn newer_in(lines: &VecDeque<Line>, number: u64) -> usize
    requires { (bound : ℕ) × AreFalling bound lines.now.items }
    ensures { result ≡ newer number lines.now.items }
{
    lines.partition_point(|line| number < line.number())
}

// Whether an object has still to be tested on the line's ban, where so many have their place, and their mark, below it.
fn is_wanted(line: &Line, placed_below: u64, marked_below: u64) -> bool
    ensures { result ≡ is_wanted line.now placed_below marked_below }
{
    let below = if line.is_object_only() {
        marked_below
    } else {
        placed_below
    };
    !line.is_completed() && below > 0
}

// Goes over the lines from the oldest on: one that is needed comes first, before the newer ones, and another goes.
fn keep_needed(
    lines: &mut VecDeque<Line>,
    equals: &mut IndexMap<Text, u64>,
    placed: &mut VecDeque<u64>,
    marked: &mut VecDeque<u64>,
)
    requires falling { (bound : ℕ) × AreFalling bound lines.old.items }
    requires completed { AreCompleted lines.old.items }
    requires index { IsIndexOf lines.old.items equals.old }
    requires places { AreFew lines.old.items placed.old.items }
    requires marks { AreFew lines.old.items marked.old.items }
    ensures lines { lines.new.items ≡ lines_left (are_needed lines.old.items placed.old.items marked.old.items) lines.old.items }
    ensures index { IsIndexOf lines.new.items equals.new }
    ensures places { placed.new.items ≡ counts_left (are_needed lines.old.items placed.old.items marked.old.items) placed.old.items }
    ensures marks { marked.new.items ≡ counts_left (are_needed lines.old.items placed.old.items marked.old.items) marked.old.items }
{
    let mut placed_below = turn_last(placed, true);
    let mut marked_below = turn_last(marked, true);
    let mut left = lines.len();
    while left > 0 {
        let stays = turn_oldest(lines, equals, placed_below, marked_below);
        placed_below += turn_last(placed, stays);
        marked_below += turn_last(marked, stays);
        left -= 1;
    }
}

// The oldest line comes first where it is needed, with so many below it, and else goes. Says which.
fn turn_oldest(
    lines: &mut VecDeque<Line>,
    equals: &mut IndexMap<Text, u64>,
    placed_below: u64,
    marked_below: u64,
) -> bool
    requires { 0 < length lines.old.items }
    ensures needed { (others : List Shown) (oldest : Shown) → lines.old.items ≡ others ++ oldest ∷ []
        → result ≡ is_wanted oldest placed_below marked_below }
    ensures lines { (others : List Shown) (oldest : Shown) → lines.old.items ≡ others ++ oldest ∷ []
        → lines.new.items ≡ line_before result oldest others }
    ensures index { (others : List Shown) (oldest : Shown) → lines.old.items ≡ others ++ oldest ∷ []
        → ForgetsUnless result equals.old (equal_key oldest.issued.ban) oldest.issued.number equals.new }
{
    let Some(oldest) = lines.pop_back() else {
        return false;
    };
    if is_wanted(&oldest, placed_below, marked_below) {
        lines.push_front_reserved(oldest);
        return true;
    }
    forget(equals, &oldest);
    let_go(oldest);
    false
}

fn last_of(counts: &VecDeque<u64>) -> u64
    requires { 0 < length counts.now.items }
    ensures { result ≡ get_or counts.now.items (length counts.now.items - 1) 0 }
{
    counts[counts.len() - 1]
}

// Puts the number under the line's key, where it has one. Gives the number that stood there.
fn put_key(
    equals: &mut IndexMap<Text, u64>,
    line: &Line,
    number: u64,
) -> Result<Option<u64>, AllocError>
    ensures earlier { IfOk result (λ earlier. earlier ≡ found_under (equal_key line.now.issued.ban) equals.old) }
    ensures ok { OnOk result (Puts equals.old (equal_key line.now.issued.ban) number equals.new) }
    ensures err { OnErr result (IsSame equals.old equals.new) }
{
    match line.key() {
        Some(key) => Ok(equals.insert(key.copy()?, number)?),
        None => Ok(None),
    }
}

// Takes the line's key out where the number under it is the line's own.
fn forget(equals: &mut IndexMap<Text, u64>, line: &Line)
    ensures { Forgets equals.old (equal_key line.now.issued.ban) line.now.issued.number equals.new }
{
    if let Some(key) = line.key()
        && equals.get(key).copied() == Some(line.number())
    {
        equals.swap_remove(key);
    }
}

fn let_go(_line: Line) {}

// Completes the line of the number, where there is one.
fn complete(lines: &mut VecDeque<Line>, number: Option<u64>)
    requires { (bound : ℕ) × AreFalling bound lines.old.items }
    ensures { lines.new.items ≡ completed_at number lines.old.items }
{
    if let Some(number) = number {
        let at = newer_in(lines, number);
        if at < lines.len() {
            lines[at].complete();
        }
    }
}
