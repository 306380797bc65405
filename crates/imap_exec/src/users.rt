//! Who a session is, by its state.

ghost use Rattle.std.specs.Prelude.{◌≡◌, IfOk};
ghost use Rattle.session_view.specs.Parts.{state_of};
ghost use Rattle.std.specs.Option.{option_copied};
ghost use Rattle.imap_exec.specs.Users.{is_fresh, is_selected, selection_in, tag_asked, user_in};

use octets::Octets;
use session_view::{Selection, Sessions, State};
use std::alloc::{AllocError, Global};

// The user as whom a session is authenticated.
pub(crate) fn user_of(sessions: &Sessions, number: u32) -> Option<u32>
    ensures { result ≡ user_in (state_of number sessions.now) }
{
    match sessions.state(number) {
        Some(State::Known(user)) => Some(*user),
        Some(State::Selected(user, _)) => Some(*user),
        Some(State::Fresh) | Some(State::Asked(_)) | None => None,
    }
}

// Whether a session isn't authenticated, nor about to be.
pub(crate) fn is_fresh(sessions: &Sessions, number: u32) -> bool
    ensures { result ≡ is_fresh (state_of number sessions.now) }
{
    match sessions.state(number) {
        Some(State::Fresh) | None => true,
        Some(State::Asked(_)) | Some(State::Known(_)) | Some(State::Selected(_, _)) => false,
    }
}

// Whether a session has a mailbox selected.
pub(crate) fn is_selected(sessions: &Sessions, number: u32) -> bool
    ensures { result ≡ is_selected (state_of number sessions.now) }
{
    match sessions.state(number) {
        Some(State::Selected(_, _)) => true,
        Some(State::Fresh) | Some(State::Asked(_)) | Some(State::Known(_)) | None => false,
    }
}

// What a session has selected.
pub(crate) fn selection_of(sessions: &Sessions, number: u32) -> Option<&Selection>
    ensures { option_copied result ≡ selection_in (state_of number sessions.now) }
{
    match sessions.state(number) {
        Some(State::Selected(_, selection)) => Some(selection),
        Some(State::Fresh) | Some(State::Asked(_)) | Some(State::Known(_)) | None => None,
    }
}

// The tag of the AUTHENTICATE of a session whose line is awaited.
pub(crate) fn tag_asked(
    alloc: Global,
    sessions: &Sessions,
    number: u32,
) -> Result<Option<Octets>, AllocError>
    ensures { IfOk result (λ tag. tag ≡ tag_asked (state_of number sessions.now)) }
{
    match sessions.state(number) {
        Some(State::Asked(tag)) => Ok(Some(Octets::new(tag.as_slice().to_vec(alloc)?))),
        Some(State::Fresh) | Some(State::Known(_)) | Some(State::Selected(_, _)) | None => Ok(None),
    }
}
