//! The core of the server over a store.

ghost use Rattle.std.specs.Prelude.{◌≡◌, ◌++◌, ◌∷◌, [], IfOk, IfErr, IsOkAnd, IsErrOf, IsTrue};
ghost use Rattle.mail_server.specs.StoreCore.{core_seen};

use disk_model::{Disk, Files};
use imap_exec::{greet, leave, step};
use mail_rounds::{Core, CoreFault, Outcome};
use port_model::Kind;
use row_store::{RowStore, StoreFault};
use session_units::{Awaits, Shown};
use session_view::Sessions;
use std::alloc::{AllocError, Global};

/// A store with the sessions' own parts.
#[derive(Drop)]
pub(crate) struct StoreCore<D: Disk> {
    pub(crate) alloc: Global,
    pub(crate) store: RowStore<D>,
    pub(crate) sessions: Sessions,
}

impl<D: Disk> StoreCore<D> {
    /// The core over a store that was loaded, with no session. The store is handed back where memory is refused.
    pub(crate) fn new(alloc: Global, store: RowStore<D>) -> Result<StoreCore<D>, RowStore<D>>
        ensures store { IfOk result (λ core. core.store ≡ store) }
        ensures sessions { IfOk result (λ core. core.sessions ≡ []) }
        ensures back { IfErr result (λ back. back ≡ store) }
    {
        match Sessions::new(alloc) {
            Ok(sessions) => Ok(StoreCore {
                alloc,
                store,
                sessions,
            }),
            Err(AllocError) => Err(store),
        }
    }

    /// The files of the store.
    pub(crate) fn into_files(self) -> Files<D>
        ensures { result ≡ self.store.files }
    {
        let StoreCore {
            alloc: _,
            store,
            sessions: _,
        } = self;
        store.into_files()
    }
}

/// What a call of a step answers, as the rounds are told it.
fn answer_of(told: Result<imap_steps::Outcome, StoreFault>) -> Result<Outcome, CoreFault>
    ensures done { IfOk result (λ outcome. IsOkAnd told (λ told. (outcome.closes ≡ told.closes) × (outcome.awaits ≡ told.awaits))) }
    ensures failed { IsErrOf result CoreFault.Failed → IsErrOf told StoreFault.Failed }
    ensures other { (IsErrOf result CoreFault.Failed → ⊥) → IsErrOf told StoreFault.Failed → ⊥ }
{
    match told {
        Ok(outcome) => Ok(Outcome {
            closes: outcome.closes,
            awaits: outcome.awaits,
        }),
        Err(StoreFault::Failed) => Err(CoreFault::Failed),
        Err(StoreFault::NoMemory) => Err(CoreFault::NoMemory),
    }
}

impl<D: Disk> Core for StoreCore<D> {
    ghost seen = { core_seen D.told };

    fn execute(
        &mut self,
        number: u32,
        awaits: Awaits,
        shown: Shown,
        unit: &[u8],
        moment: u64,
        answer: &mut Vec<u8>,
    ) -> Result<Outcome, CoreFault> {
        let told = step(
            self.alloc,
            &mut self.store,
            &mut self.sessions,
            number,
            awaits,
            shown,
            unit,
            moment,
            answer,
        );
        answer_of(told)
    }

    fn greet(
        &mut self,
        number: u32,
        kind: Kind,
        others: usize,
        answer: &mut Vec<u8>,
    ) -> Result<Outcome, CoreFault> {
        answer_of(greet(&mut self.sessions, number, kind, others, answer))
    }

    fn leave(&mut self, number: u32) {
        leave(&mut self.sessions, number);
    }
}
