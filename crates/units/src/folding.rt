// Texts that are equal but for the case of ASCII letters.
ghost use Rattle.std.specs.Prelude.{◌≡◌, ◌↔◌, IsTrue};
ghost use Rattle.units.specs.Folding.{folded};

/// Whether two texts are equal where the case of ASCII letters isn't regarded, as names of header fields
/// are compared (RFC 9110, section 5.1).
pub fn fold_eq(a: &[u8], b: &[u8]) -> bool
    ensures { IsTrue result ↔ (folded a.now ≡ folded b.now) }
{
    a.eq_ignore_ascii_case(b)
}
