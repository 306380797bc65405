//! The values of fields as clients read them.
ghost use Rattle.std.specs.Prelude.{◌≡◌, ◌++◌, OnOk};
ghost use Rattle.std.specs.Option.{option_map};
ghost use Rattle.imap_writer.specs.Spaced.{behind_space};
ghost use Rattle.imap_writer.specs.Texts.{text_of};
ghost use Rattle.canon_writer.specs.Printing.{value_text as value_text_of};
ghost use Rattle.envelope_view.specs.Envelope.{field_text, first_value as first_value_of};

use canon_writer::value_text;
use imap_writer::push_text;
use mail_text::same;
use mime_tree::{Field, Value};
use std::alloc::{AllocError, Global};

/// The value of the first field with a name, in any case.
pub(crate) fn first_value<'a>(name: &[u8], fields: &'a [Field]) -> Option<&'a Value>
    ensures { option_map (λ value. value.now) result ≡ first_value_of name.now fields.now }
{
    for field in fields {
        if same(field.name.as_slice(), name) {
            return Some(&field.value);
        }
    }
    None
}

fn push_value(alloc: Global, out: &mut Vec<u8>, value: &Value) -> Result<(), AllocError>
    ensures { OnOk result (out.new.items ≡ out.old.items ++ text_of (value_text_of value.now)) }
{
    match value {
        Value::Text(text) => push_text(out, text.as_slice()),
        value => push_text(out, &value_text(alloc, value)?),
    }
}

/// The first field with a name as a string, with nothing decoded; NIL where there is none.
#[tactic(auto, unfolding(crate::specs::Envelope::field_text))]
pub(crate) fn push_field_text(
    alloc: Global,
    out: &mut Vec<u8>,
    name: &[u8],
    fields: &[Field],
) -> Result<(), AllocError>
    ensures { OnOk result (out.new.items ≡ out.old.items ++ field_text name.now fields.now) }
{
    match first_value(name, fields) {
        Some(value) => push_value(alloc, out, value),
        None => out.extend_from_slice(b"NIL"),
    }
}

/// The same behind a space.
pub(crate) fn push_field_behind(
    alloc: Global,
    out: &mut Vec<u8>,
    name: &[u8],
    fields: &[Field],
) -> Result<(), AllocError>
    ensures { OnOk result (out.new.items ≡ out.old.items ++ behind_space (field_text name.now fields.now)) }
{
    out.extend_from_slice(b" ")?;
    push_field_text(alloc, out, name, fields)
}
