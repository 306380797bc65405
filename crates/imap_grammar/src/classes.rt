//! Kinds of bytes.
ghost use Rattle.std.specs.Prelude.{◌≡◌, ◌==◌, codes};
ghost use Rattle.std.specs.List.{list_any};
ghost use Rattle.imap_grammar.specs.Classes.{is_atom_byte, is_in as is_in_of};

/// Bytes that runs are made of.
#[derive(Clone, Copy, Debug, PartialEq, Eq)]
pub(crate) enum Class {
    /// Those of an atom (RFC 3501 §9, ATOM-CHAR).
    Atom,
    /// Those of an atom, and `]` (ASTRING-CHAR).
    Astring,
    /// Those, and the wildcards `%` and `*` (list-char).
    Pattern,
    /// Those of a tag.
    Tag,
    /// Those that keywords have: letters, digits, `.`, `+` and `-`.
    Word,
    Digit,
}

/// Whether a byte is of the class.
pub(crate) fn is_in(class: Class, b: u8) -> bool
    ensures { result ≡ is_in_of class b }
{
    match class {
        Class::Atom => is_atom(b),
        Class::Astring => is_atom(b) || b == b']',
        Class::Pattern => is_atom(b) || b == b']' || b == b'%' || b == b'*',
        Class::Tag => (is_atom(b) || b == b']') && b != b'+',
        Class::Word => b.is_ascii_alphanumeric() || b == b'.' || b == b'+' || b == b'-',
        Class::Digit => b.is_ascii_digit(),
    }
}

#[tactic(auto, unfolding(crate::specs::Classes::is_atom_byte))]
fn is_atom(b: u8) -> bool
    ensures { result ≡ is_atom_byte b }
{
    b.is_ascii_alphanumeric() || (b >= 0x21 && b <= 0x7E && !is_special(b))
}

fn is_special(b: u8) -> bool
    ensures { result ≡ list_any (λ special. special == b) (codes "(){%*\"\\]") }
{
    matches!(b, b'(' | b')' | b'{' | b'%' | b'*' | b'"' | b'\\' | b']')
}
