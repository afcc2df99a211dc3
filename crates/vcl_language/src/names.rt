// Where a name stands in a table.
ghost use Rattle.std.specs.Prelude.{◌≡◌, position, option_and_then, slice_get};
ghost use Rattle.std.specs.Str.{bytes_eq};
ghost use Rattle.vcl_language.specs.Variables.{is_field_of};

/// The number of the first row with this name.
pub fn row_of(names: &[&str], name: &[u8]) -> Option<usize>
    ensures { result ≡ position (λ known. bytes_eq known.now name.now) names.now }
{
    names.iter().position(|known| known.as_bytes() == name)
}

/// The number of the first row whose front the name has, with something behind it.
pub fn field_row(fronts: &[&str], name: &[u8]) -> Option<usize>
    ensures { result ≡ position (λ front. is_field_of front.now name.now) fronts.now }
{
    fronts
        .iter()
        .position(|front| is_field_of(front.as_bytes(), name))
}

// Whether the name is the front and something behind it.
fn is_field_of(front: &[u8], name: &[u8]) -> bool
    ensures { result ≡ is_field_of front.now name.now }
{
    match front {
        [] => !name.is_empty(),
        [first, front @ ..] => match name {
            [] => false,
            [byte, name @ ..] => *first == *byte && is_field_of(front, name),
        },
    }
}

/// The entry of a row.
pub fn entry_at<T: Copy>(entries: &[T], row: Option<usize>) -> Option<T>
    ensures { result ≡ option_and_then (λ k. slice_get entries.now k) row }
{
    match row {
        None => None,
        Some(row) => entries.get(row).copied(),
    }
}
