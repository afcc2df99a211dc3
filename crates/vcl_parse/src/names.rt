// Names and decimals by their ends.
ghost use Rattle.std.specs.Prelude.{◌≡◌};
ghost use Rattle.vcl_tree.specs.Endings.{has_zeros, adds_backend};

use vcl_tree::ends_in;

/// Whether a decimal's fraction is zeros.
pub fn has_zero_fraction(decimal: &[u8]) -> bool
    ensures { result ≡ has_zeros decimal.now }
{
    ends_in(b".0", decimal) || ends_in(b".00", decimal) || ends_in(b".000", decimal)
}

/// Whether a name is that of a director's method that takes a weight.
pub fn takes_weight(name: &[u8]) -> bool
    ensures { result ≡ adds_backend name.now }
{
    ends_in(b".add_backend", name)
}
