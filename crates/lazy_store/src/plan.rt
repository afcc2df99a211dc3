// What a soft purge does to the containers.
ghost use Rattle.std.specs.Prelude.{◌≡◌, ◌++◌, option_to_list, IfOk, OnOk};
ghost use Rattle.std.specs.Ordering.{int_eq};
ghost use Rattle.lazy_store.specs.Members.{handle_of};
ghost use Rattle.lazy_store.specs.Softening.{FitIn, ending_at, ending_to, endings_at, object_at, objects_at, with_objects};
ghost use Rattle.lazy_store.specs.Tied.{AreApart};

use crate::ends::end_of;
use crate::placement::Placement;
use cache_law::Object;
use object_heads::{Heads, Item};
use room_lru::Ending;
use softening::softened;
use std::alloc::{AllocError, Global};
use units::Shared;

/// What is to become of some objects: their ends in the list by use, and the objects that come in their places, each with its handle.
#[derive(Drop)]
pub(crate) struct Plan {
    pub endings: Vec<Ending>,
    pub objects: Vec<(u64, Shared<Object>)>,
}

fn is_same(end: i128, other: i128) -> bool
    ensures { result ≡ int_eq end other }
{
    end == other
}

/// The end that the item of the handle is to have with another object, where that is another than it has.
fn ending_to(object: &Object, handle: u64, item: &Item<Placement>) -> Option<Ending>
    ensures { result ≡ ending_to object.now handle item.now }
{
    let end = end_of(&item.view.object);
    let new_end = end_of(object);
    if is_same(end, new_end) {
        return None;
    }
    Some(Ending {
        used: item.payload.used,
        handle,
        end,
        new_end,
    })
}

// Puts the object of the number into the plan, where there is one.
fn add_to(
    plan: &mut Plan,
    heads: &Heads<Placement>,
    alloc: Global,
    moment: u64,
    number: u64,
) -> Result<(), AllocError>
    requires { AreApart handle_of heads.now }
    ensures endings { OnOk result (plan.new.endings.items ≡ plan.old.endings.items ++ option_to_list (ending_at moment heads.now number)) }
    ensures objects { OnOk result (plan.new.objects.items ≡ plan.old.objects.items ++ option_to_list (object_at moment heads.now number)) }
{
    let Some(handle) = heads.handle_of(number) else {
        return Ok(());
    };
    let Some(item) = heads.get(handle) else {
        return Ok(());
    };
    let object = softened(alloc, moment, &item.view.object)?;
    let ending = ending_to(&object, handle, item);
    plan.objects.push((handle, object))?;
    if let Some(ending) = ending {
        plan.endings.push(ending)?;
    }
    Ok(())
}

/// What becomes of the objects of these numbers where their lifetime ends at the moment.
pub(crate) fn plan_for(
    heads: &Heads<Placement>,
    alloc: Global,
    moment: u64,
    numbers: &[u64],
) -> Result<Plan, AllocError>
    requires { AreApart handle_of heads.now }
    ensures endings { IfOk result (λ plan. plan.endings.items ≡ endings_at moment heads.now numbers.now) }
    ensures objects { IfOk result (λ plan. plan.objects.items ≡ objects_at moment heads.now numbers.now) }
{
    let mut plan = Plan {
        endings: Vec::new(alloc),
        objects: Vec::new(alloc),
    };
    for number in numbers {
        add_to(&mut plan, heads, alloc, moment, *number)?;
    }
    Ok(plan)
}

/// Puts the objects in the places of those of their handles, which have the same keys. It takes no memory.
pub(crate) fn set_objects(heads: &mut Heads<Placement>, objects: Vec<(u64, Shared<Object>)>)
    requires { FitIn heads.old objects.items }
    ensures { heads.new ≡ with_objects objects.items heads.old }
{
    let mut left = objects;
    'objects: while let Some((handle, object)) = left.pop() {
        heads.set_object(handle, object);
    }
}
