// The response, over the client's link.
ghost use Rattle.std.specs.Prelude.{◌≡◌, ◌≤◌, IfErr, OnOk};
ghost use Rattle.wire.specs.Causes.{Rose};
ghost use Rattle.round_lead.specs.Steps.{Sends, SendsPart};

use crate::cut::Cut;
use crate::keeping::Progress;
use delivery::{Delivery, closes, print_delivery};
use std::alloc::Global;
use wire::{Link, write_most};

/// Sends the response. What the link took of it is kept.
pub(crate) fn send_on<L: Link>(
    alloc: Global,
    link: &mut L,
    progress: &mut Progress,
    delivery: &Delivery,
) -> Result<(), Cut>
    ensures sent { OnOk result (Sends (L.flow link.old) (L.flow link.new) progress.old progress.new delivery.now) }
    ensures cut { IfErr result (SendsPart (L.flow link.old) (L.flow link.new) progress.old progress.new delivery.now) }
    ensures failed { IfErr result (λ cut. cut ≡ Cut.WriteFault → Rose (L.write_faults link.old) (L.write_faults link.new)) }
    ensures later { L.write_faults link.old ≤ L.write_faults link.new }
    ensures other { L.read_faults link.new ≡ L.read_faults link.old }
    ensures peer { L.peer link.new ≡ L.peer link.old }
{
    let text = match print_delivery(alloc, delivery) {
        Ok(text) => text,
        Err(_) => return Err(Cut::NoMemory),
    };
    if progress.sent.extend_from_slice(text.bytes()).is_err() {
        return Err(Cut::NoMemory);
    }
    let len = text.bytes().len();
    let taken = write_most(link, text.bytes());
    if taken < len {
        let all = progress.sent.len();
        progress.sent.truncate(all - (len - taken));
        return Err(Cut::WriteFault);
    }
    progress.closes = progress.closes || closes(delivery);
    Ok(())
}
