// Which types fit where.
ghost use Rattle.std.specs.Prelude.{◌≡◌};
ghost use Rattle.vcl_check.specs.Kinds.{same_kind, is_value, is_condition, is_ordered, alike, adds, may_add, sum_kind, kind_in, sum_sort, difference_kind, difference_sort, accepts, grouped_sort, is_ip, is_acl, is_searched, is_text};

use crate::seen::Sort;
use vcl_values::Kind;

pub fn same_kind(a: Kind, b: Kind) -> bool
    ensures { result ≡ same_kind a b }
{
    match a {
        Kind::String => matches!(b, Kind::String),
        Kind::Int => matches!(b, Kind::Int),
        Kind::Duration => matches!(b, Kind::Duration),
        Kind::Bool => matches!(b, Kind::Bool),
        Kind::Ip => matches!(b, Kind::Ip),
        Kind::Backend => matches!(b, Kind::Backend),
    }
}

pub fn is_value(sort: Sort) -> bool
    ensures { result ≡ is_value sort }
{
    matches!(sort, Sort::Value(_))
}

pub fn is_condition(sort: Sort) -> bool
    ensures { result ≡ is_condition sort }
{
    match sort {
        Sort::Value(Some(kind)) => !matches!(kind, Kind::Ip),
        Sort::Value(None) => true,
        _ => false,
    }
}

pub fn is_ordered(sort: Sort) -> bool
    ensures { result ≡ is_ordered sort }
{
    match sort {
        Sort::Value(Some(kind)) => matches!(kind, Kind::Int | Kind::Duration),
        Sort::Value(None) => true,
        _ => false,
    }
}

pub fn alike(a: Sort, b: Sort) -> bool
    ensures { result ≡ alike a b }
{
    match a {
        Sort::Value(None) => true,
        Sort::Value(Some(first)) => match b {
            Sort::Value(Some(second)) => same_kind(first, second),
            Sort::Value(None) => true,
            _ => false,
        },
        _ => false,
    }
}

fn adds(a: Kind, b: Kind) -> bool
    ensures { result ≡ adds a b }
{
    match a {
        Kind::String => true,
        Kind::Int => matches!(b, Kind::String | Kind::Int),
        Kind::Duration => matches!(b, Kind::String | Kind::Duration),
        Kind::Bool | Kind::Ip | Kind::Backend => matches!(b, Kind::String),
    }
}

pub fn may_add(a: Sort, b: Sort) -> bool
    ensures { result ≡ may_add a b }
{
    match a {
        Sort::Value(Some(first)) => match b {
            Sort::Value(Some(second)) => adds(first, second),
            Sort::Value(None) => true,
            _ => false,
        },
        Sort::Value(None) => is_value(b),
        _ => false,
    }
}

fn sum_kind(a: Kind, b: Kind) -> Option<Kind>
    ensures { result ≡ sum_kind a b }
{
    if matches!(a, Kind::String) || matches!(b, Kind::String) {
        return Some(Kind::String);
    }
    difference_kind(a, b)
}

fn difference_kind(a: Kind, b: Kind) -> Option<Kind>
    ensures { result ≡ difference_kind a b }
{
    match a {
        Kind::Int => match b {
            Kind::Int => Some(Kind::Int),
            _ => None,
        },
        Kind::Duration => match b {
            Kind::Duration => Some(Kind::Duration),
            _ => None,
        },
        _ => None,
    }
}

// The type that is known of a value.
fn kind_in(sort: Sort) -> Option<Kind>
    ensures { result ≡ kind_in sort }
{
    match sort {
        Sort::Value(kind) => kind,
        _ => None,
    }
}

pub fn sum_sort(a: Sort, b: Sort) -> Sort
    ensures { result ≡ sum_sort a b }
{
    match (kind_in(a), kind_in(b)) {
        (Some(first), Some(second)) => Sort::Value(sum_kind(first, second)),
        _ => Sort::Value(None),
    }
}

pub fn difference_sort(a: Sort, b: Sort) -> Sort
    ensures { result ≡ difference_sort a b }
{
    match (kind_in(a), kind_in(b)) {
        (Some(first), Some(second)) => Sort::Value(difference_kind(first, second)),
        _ => Sort::Value(None),
    }
}

/// Whether what is given may stand where a type is wanted.
pub fn accepts(wanted: Kind, given: Sort) -> bool
    ensures { result ≡ accepts wanted given }
{
    match wanted {
        Kind::String => is_value(given),
        other => alike(Sort::Value(Some(other)), given),
    }
}

pub fn grouped_sort(sort: Sort) -> Sort
    ensures { result ≡ grouped_sort sort }
{
    Sort::Value(kind_in(sort))
}

pub fn is_ip(sort: Sort) -> bool
    ensures { result ≡ is_ip sort }
{
    match sort {
        Sort::Value(Some(kind)) => matches!(kind, Kind::Ip),
        _ => false,
    }
}

pub fn is_acl(sort: Sort) -> bool
    ensures { result ≡ is_acl sort }
{
    matches!(sort, Sort::Acl)
}

pub fn is_searched(sort: Sort) -> bool
    ensures { result ≡ is_searched sort }
{
    match sort {
        Sort::Value(Some(kind)) => !matches!(kind, Kind::Ip),
        _ => false,
    }
}

pub fn is_text(kind: Kind) -> bool
    ensures { result ≡ is_text kind }
{
    matches!(kind, Kind::String)
}
