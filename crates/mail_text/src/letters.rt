//! ASCII letters without regard to their case.
ghost use Rattle.std.specs.Prelude.{◌≡◌, ◌↔◌, IsTrue, map};
ghost use Rattle.std.specs.Char.{to_ascii_lowercase};
ghost use Rattle.mail_text.specs.Case.{is_same};

/// A byte with `A` to `Z` made small; any other byte is as it was.
pub fn lower(b: u8) -> u8
    ensures { result ≡ to_ascii_lowercase b }
{
    b.to_ascii_lowercase()
}

/// Whether two texts are equal without regard to the case of ASCII letters.
pub fn same(a: &[u8], b: &[u8]) -> bool
    ensures value { result ≡ is_same a.now b.now }
    ensures means { IsTrue result ↔ (map to_ascii_lowercase a.now ≡ map to_ascii_lowercase b.now) }
{
    a.eq_ignore_ascii_case(b)
}
