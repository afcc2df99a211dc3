// The plain cache, stepped along a journal.
ghost use Rattle.history_audit.specs.Alongside.{IsAlongside};

use crate::answering::answer;
use crate::saying::answering_of;
use crate::stepping::awaited;
use audit_laws::Kind;
use cache_law::{CacheCore, Issued, Params};
use flat_core::FlatCore;
use journal_audit::{Expected, Fault, Follower};
use journal_text::{First, Said};
use std::alloc::{AllocError, Global};
use std::collections::VecDeque;

/// A cache that was stepped along a journal, and what it doesn't keep itself.
#[derive(Drop)]
pub struct Following {
    pub(crate) core: FlatCore,
    /// What the entries of the segment take.
    pub(crate) used: u64,
    /// Each ban of the run, the newest first: a list of bans may show one that the cache gave up at the end of a segment.
    pub(crate) bans: VecDeque<Issued>,
}

impl Follower for Following {
    ghost stands = { λ following params state used. IsAlongside following.core following.used following.bans.items params state used };

    fn start(alloc: Global, first: First) -> Result<Following, AllocError> {
        let First {
            room,
            history,
            boot,
        } = first;
        let params = Params {
            room,
            history,
            segments: false,
        };
        Ok(Following {
            core: FlatCore::make(alloc, &params, boot)?,
            used: 0,
            bans: VecDeque::new(alloc),
        })
    }

    fn enter(self, alloc: Global, said: Said) -> Result<Result<Following, Fault>, AllocError> {
        let moment = self.core.moment();
        if said.moment < moment {
            return Ok(Err(Fault {
                kind: Kind::Moment,
                expected: Expected::Moment(moment),
            }));
        }
        if let Some(token) = awaited(&self.core, said.caller, &said.call) {
            return Ok(Err(Fault {
                kind: Kind::Wait,
                expected: Expected::Closing(token),
            }));
        }
        let answering = answering_of(&said.reply);
        let fits = self.core.fits(
            alloc,
            self.used,
            said.caller,
            said.moment,
            &said.call,
            answering,
        )?;
        if !fits {
            return Ok(Err(Fault {
                kind: Kind::Bytes,
                expected: Expected::Fitting,
            }));
        }
        answer(alloc, self, said)
    }

    fn cut(self, alloc: Global) -> Result<Result<Following, Kind>, AllocError> {
        if !self.core.is_idle() {
            return Ok(Err(Kind::Cut));
        }
        let Following { core, bans, .. } = self;
        match core.reopen(alloc) {
            Ok((_entries, core)) => Ok(Ok(Following {
                core,
                used: 0,
                bans,
            })),
            Err(_) => Err(AllocError),
        }
    }
}
