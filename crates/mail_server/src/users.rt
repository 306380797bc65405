//! The word about the users of a store.

ghost use Rattle.std.specs.Prelude.{◌≡◌, false, codes};
ghost use Rattle.std.specs.List.{list_all};
ghost use Rattle.mail_server.specs.declared.status.Status.TheVariants.{NoMemory, Refused};
ghost use Rattle.mail_server.specs.Outside.{EndsWriting};
ghost use Rattle.mail_server.specs.Users.{AddsTo, AddsUser, is_password, is_password_byte};

use crate::answer::end_with;
use crate::status::Status;
use crate::stores::refusal;
use disk_model::{Disk, Files};
use mailbox_core::laws::loaded_tables_stand;
use mailbox_core::{MailFault, add_user, is_user_name};
use port_model::Sink;
use row_store::laws::sure_files_leave_the_same;
use row_store::{RowStore, Unloaded};
use std::alloc::Global;

/// Whether a byte may stand in a password: printed ASCII, but for the space.
fn is_password_byte(byte: u8) -> bool
    ensures { result ≡ is_password_byte byte }
{
    byte.is_ascii_graphic()
}

/// Whether all bytes may stand in a password.
fn are_password_bytes(bytes: &[u8]) -> bool
    ensures { result ≡ list_all is_password_byte bytes.now }
{
    bytes.iter().all(|byte| is_password_byte(*byte))
}

/// Whether a user may be given a password: 1 to 128 bytes of printed ASCII without spaces.
fn is_password(password: &[u8]) -> bool
    ensures { result ≡ is_password password.now }
{
    let are_bytes = are_password_bytes(password);
    let is_short = 1 <= password.len() && password.len() <= 128;
    are_bytes && is_short
}

/// Adds a user to the store that the files hold. A line says why none is added.
pub(crate) fn add_user_to_files<K: Sink, D: Disk>(
    alloc: Global,
    name: &[u8],
    password: &[u8],
    sink: &mut K,
    files: Files<D>,
) -> (Status, Files<D>)
    ensures { AddsUser K.written K.faults D.told result.0 name.now password.now sink.old sink.new files result.1 }
{
    loaded_tables_stand();
    sure_files_leave_the_same::<D>();
    match RowStore::load(alloc, files) {
        Ok(store) => {
            let mut store = store;
            let status = add_user_to(alloc, name, password, sink, &mut store);
            (status, store.into_files())
        }
        Err(unloaded) => {
            let Unloaded { fault, files } = unloaded;
            (refusal(fault), files)
        }
    }
}

/// Adds a user to a store that was loaded.
fn add_user_to<K: Sink, D: Disk>(
    alloc: Global,
    name: &[u8],
    password: &[u8],
    sink: &mut K,
    store: &mut RowStore<D>,
) -> Status
    requires { store.old.spent ≡ false }
    ensures { AddsTo K.written K.faults D.told result name.now password.now sink.old sink.new store.old store.new }
{
    if !is_user_name(name) {
        return end_with(sink, Status::Refused, b"refused: bad name\n");
    }
    if !is_password(password) {
        return end_with(sink, Status::Refused, b"refused: bad password\n");
    }
    match add_user(alloc, store, name, password) {
        Ok(_) => Status::Done,
        Err(fault) => end_at(sink, fault),
    }
}

/// Ends a run for the reason why no user was added, which is written where the store refuses one.
fn end_at<K: Sink>(sink: &mut K, fault: MailFault) -> Status
    ensures exists { fault ≡ MailFault.Exists → EndsWriting K.written K.faults Refused (codes "refused: user exists\n") result sink.old sink.new }
    ensures full { fault ≡ MailFault.Full → EndsWriting K.written K.faults Refused (codes "refused: full\n") result sink.old sink.new }
    ensures failed { fault ≡ MailFault.Failed → (result ≡ Status.StoreFault) × (sink.new ≡ sink.old) }
    ensures no_memory { fault ≡ MailFault.NoMemory → (result ≡ NoMemory) × (sink.new ≡ sink.old) }
{
    match fault {
        MailFault::Failed => Status::StoreFault,
        MailFault::NoMemory => Status::NoMemory,
        MailFault::Exists => end_with(sink, Status::Refused, b"refused: user exists\n"),
        // (there is no other reason)
        MailFault::Full
        | MailFault::BadName
        | MailFault::Absent
        | MailFault::InUse
        | MailFault::NoUid => end_with(sink, Status::Refused, b"refused: full\n"),
    }
}
