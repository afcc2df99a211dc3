// Bytes that don't change once they are made.
ghost use Rattle.std.specs.Prelude.{◌≡◌, ◌≤◌, length, nat_eq, refl, IfOk, Some};
ghost use Rattle.std.specs.Ordering.{nat_cmp};
ghost use Rattle.std.specs.Hash as fed;
ghost use Rattle.std.specs.Cmp.Lexicographic.{pointwise, slice_cmp, nat_list_eq_equiv, nat_list_cmp_total, texts_ties, texts_po};
ghost use Rattle.std.specs.Cmp.{partial_equiv_from_equiv};
ghost use Rattle.std.specs.Cmp.Rules.{hashing};
ghost use Rattle.std.proofs.Common.{rules};

use std::alloc::{AllocError, Global};
use std::cmp::Ordering;
use std::fmt;
use std::hash::{Hash, Hasher};
use std::marker::Model;
use std::sync::ArcSlice;

/// The most bytes that stand in the text itself, so that a short text takes no memory elsewhere.
const SHORT: usize = 15;

// Where the bytes stand.
#[derive(Drop)]
enum Kept {
    // the first of these
    Short { len: u8, bytes: [u8; 14] },
    // all of these, which leave no room for a length
    Fifteen([u8; 15]),
    Shared(ArcSlice<u8>),
}

/// Bytes that don't change once they are made. Clauses see the list of the bytes. A copy shares them where there are
/// more than a few.
#[derive(Drop)]
pub struct Text {
    kept: Kept,
}

impl Model for Text {
    ghost use Rattle.std.specs.Prelude.{List, ℕ};

    ghost Value = { List ℕ };

    ghost use Rattle.units.specs.Texts.{bytes_of, IsWhole};

    ghost view = { λ t. bytes_of t.kept };

    ghost invariant = { λ t. IsWhole t.kept };
}

impl Text {
    pub fn of(alloc: Global, bytes: &[u8]) -> Result<Text, AllocError>
        ensures { IfOk result (λ t. t ≡ bytes.now) }
    {
        if bytes.len() <= SHORT {
            return Ok(Text::short(bytes));
        }
        Ok(Text {
            kept: Kept::Shared(ArcSlice::from_slice(alloc, bytes)?),
        })
    }

    // A few bytes, in the text itself.
    fn short(bytes: &[u8]) -> Text
        requires { length bytes.now ≤ 15 }
        ensures { result ≡ bytes.now }
    {
        if let Ok(bytes) = <[u8; 15]>::try_from(bytes) {
            return Text {
                kept: Kept::Fifteen(bytes),
            };
        }
        let mut held = [0; 14];
        held[..bytes.len()].copy_from_slice(bytes);
        Text {
            kept: Kept::Short {
                len: bytes.len() as u8,
                bytes: held,
            },
        }
    }

    /// The bytes of a finished vector, which stay where they are, where there are more than a few.
    pub fn from_vec(bytes: Vec<u8>) -> Result<Text, AllocError>
        ensures { IfOk result (λ t. t ≡ bytes.items) }
    {
        if bytes.len() <= SHORT {
            return Ok(Text::short(bytes.as_slice()));
        }
        Ok(Text {
            kept: Kept::Shared(ArcSlice::from_vec(bytes)?),
        })
    }

    /// The same bytes again, without a copy of them where there are more than a few.
    pub fn copy(&self) -> Result<Text, AllocError>
        ensures { IfOk result (λ t. t ≡ self.now) }
    {
        match &self.kept {
            Kept::Short { len, bytes } => Ok(Text {
                kept: Kept::Short {
                    len: *len,
                    bytes: *bytes,
                },
            }),
            Kept::Fifteen(bytes) => Ok(Text {
                kept: Kept::Fifteen(*bytes),
            }),
            Kept::Shared(bytes) => Ok(Text {
                kept: Kept::Shared(bytes.clone()?),
            }),
        }
    }

    pub fn bytes(&self) -> &[u8]
        ensures { result.now ≡ self.now }
    {
        match &self.kept {
            Kept::Short { len, bytes } => &bytes[..usize::from(*len)],
            Kept::Fifteen(bytes) => bytes,
            Kept::Shared(bytes) => bytes.as_slice(),
        }
    }
}

impl PartialEq for Text {
    ghost eq = { pointwise nat_eq };

    ghost laws = { partial_equiv_from_equiv nat_list_eq_equiv };

    fn eq(&self, other: &Self) -> bool {
        self.bytes() == other.bytes()
    }
}

impl Eq for Text {
    ghost laws = { nat_list_eq_equiv };
}

impl PartialOrd for Text {
    ghost partial_cmp = { λ x y. Some (slice_cmp nat_cmp x y) };

    ghost laws = { texts_po };

    fn partial_cmp(&self, other: &Self) -> Option<Ordering> {
        Some(self.cmp(other))
    }
}

impl Ord for Text {
    ghost cmp = { slice_cmp nat_cmp };

    ghost total = { nat_list_cmp_total };

    ghost matches_partial_cmp = { λ x y. refl };

    ghost matches_eq = { texts_ties };

    fn cmp(&self, other: &Self) -> Ordering {
        self.bytes().cmp(other.bytes())
    }
}

impl Hash for Text {
    ghost hash_input = { fed.slice fed.u8 };

    ghost respects_eq = { Prim.search (hashing, rules) };

    fn hash<H: Hasher>(&self, state: &mut H) {
        self.bytes().hash(state);
    }
}

/// The bytes as a byte string literal: `b"..."`.
impl fmt::Debug for Text {
    fn fmt<W: fmt::Write>(&self, f: &mut fmt::Formatter<W>) -> fmt::Result {
        f.write_str("b\"")?;
        for &byte in self.bytes() {
            write_byte(byte, f)?;
        }
        f.write_str("\"")
    }
}

fn write_byte<W: fmt::Write>(byte: u8, f: &mut fmt::Formatter<W>) -> fmt::Result {
    match byte {
        b'\n' => f.write_str("\\n"),
        b'\r' => f.write_str("\\r"),
        b'\t' => f.write_str("\\t"),
        b'\\' | b'"' => write!(f, "\\{}", byte as char),
        0x20..=0x7e => write!(f, "{}", byte as char),
        _ => write!(f, "\\x{:02x}", byte),
    }
}
