//! The flags of a message.

ghost use Rattle.std.specs.Prelude.{◌≡◌, ◌++◌, ◌∷◌, [], ℕ, List, filter, IfOk, OnOk, if◌then◌else◌};
ghost use Rattle.std.specs.Option.{option_map};
ghost use Rattle.imap_grammar.specs.declared.flags.Flag.TheVariants.{Seen};
ghost use Rattle.row_tables.specs.declared.contents.BodyPart.{BodyPart};
ghost use Rattle.mail_world.specs.Flags.{has_flag};
ghost use Rattle.mail_world.specs.Worlds.{World};
ghost use Rattle.mail_stands.specs.Facts.{entry_in, flags_of};
ghost use Rattle.mail_stands.specs.Flagging.{is_flagged};
ghost use Rattle.mail_stands.specs.Stands.{Stands};
ghost use Rattle.mailbox_reader.specs.Telling.{system_flags, told_flags};
ghost use Rattle.mailbox_reader.specs.FlagRows.{TellsRows, is_flagged_in};

use crate::entries::is_there;
use crate::keywords::{with_keywords, words_at};
use imap_grammar::Flag;
use ordered_rows::laws::{insertion, keys};
use row_tables::{FlagName, Tables};
use sqlite_items::Items;
use std::alloc::{AllocError, Global};

/// The flags of a message of a mailbox, in the order in which they are told: those of the standard, and then the keywords by bytes
/// (RFC 3501 §2.3.2, §7.4.2). `\Recent` is none of them. None where the mailbox has no message with the UID. Costs a look-up for each
/// flag.
pub fn flags_at(
    alloc: Global,
    tables: &Tables,
    mailbox: u32,
    uid: u32,
) -> Result<Option<Items<Flag>>, AllocError>
    ensures { (content : BodyPart → List ℕ) (w : World) → Stands content tables.now w
        → IfOk result (λ told. told ≡ option_map (λ entry. told_flags entry.message.flags) (entry_in mailbox uid w.mailboxes)) }
{
    keys();
    insertion::<FlagName>();
    tables.are_whole();
    if is_there(tables, mailbox, uid) {
        let flags = flags_in(alloc, tables, mailbox, uid)?;
        Ok(Some(Items::from_vec(flags)))
    } else {
        Ok(None)
    }
}

/// Whether a mailbox has a message with a UID, and the message has the flag `\Seen`. Costs two look-ups.
pub fn is_seen(tables: &Tables, mailbox: u32, uid: u32) -> bool
    ensures { (content : BodyPart → List ℕ) (w : World) → Stands content tables.now w
        → result ≡ has_flag Seen (flags_of (entry_in mailbox uid w.mailboxes)) }
{
    is_flagged(tables, mailbox, uid, b"\\Seen")
}

// The flags of a message, as its rows tell them.
fn flags_in(alloc: Global, tables: &Tables, mailbox: u32, uid: u32) -> Result<Vec<Flag>, AllocError>
    ensures { IfOk result (λ flags. TellsRows tables.now mailbox uid flags.items) }
{
    let flags = system_flags(alloc, tables, mailbox, uid)?;
    let words = words_at(alloc, tables, mailbox, uid)?;
    with_keywords(alloc, flags, words)
}

// Those of the standard.
fn system_flags(
    alloc: Global,
    tables: &Tables,
    mailbox: u32,
    uid: u32,
) -> Result<Vec<Flag>, AllocError>
    ensures { IfOk result (λ flags. flags.items ≡ filter (is_flagged_in tables.now mailbox uid) system_flags) }
{
    let answered = is_flagged(tables, mailbox, uid, b"\\Answered");
    let flagged = is_flagged(tables, mailbox, uid, b"\\Flagged");
    let deleted = is_flagged(tables, mailbox, uid, b"\\Deleted");
    let seen = is_flagged(tables, mailbox, uid, b"\\Seen");
    let draft = is_flagged(tables, mailbox, uid, b"\\Draft");
    let mut flags = Vec::new(alloc);
    add_if(&mut flags, answered, Flag::Answered)?;
    add_if(&mut flags, flagged, Flag::Flagged)?;
    add_if(&mut flags, deleted, Flag::Deleted)?;
    add_if(&mut flags, seen, Flag::Seen)?;
    add_if(&mut flags, draft, Flag::Draft)?;
    Ok(flags)
}

// Adds a flag to flags, if the message has it.
fn add_if(flags: &mut Vec<Flag>, has: bool, flag: Flag) -> Result<(), AllocError>
    ensures { OnOk result (flags.new.items ≡ flags.old.items ++ (if has then flag ∷ [] else [])) }
{
    if has {
        flags.push(flag)?;
    }
    Ok(())
}

// Whether a message has a row with the flag of a name.
fn is_flagged(tables: &Tables, mailbox: u32, uid: u32, name: &[u8]) -> bool
    ensures { result ≡ is_flagged mailbox uid name.now tables.now.marks.flag_names tables.now.marks.flags }
{
    match tables.flag_name_id(name) {
        Some(flag) => tables.flags_row((mailbox, uid, flag)).is_some(),
        None => false,
    }
}
