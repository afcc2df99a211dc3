// Rules on two parts that are tied.
ghost use Rattle.std.specs.Prelude.{◌≡◌, []};
ghost use Rattle.std.specs.List.{list_all, list_any};
ghost use Rattle.vcl_language.specs.Scopes.{has};
ghost use Rattle.vcl_check.specs.Rules.{both_fit, ill_function, is_one, is_nowhere, is_timed, answer_takes, other_scope, ill_answer, ill_set, ill_appended, is_zero, ill_made, misfit, fails, may_stand, is_new, may_stand_in, misplaced, unwritten_call, unwritten_in};

use crate::form::Form;
use crate::rules::calls::{ill_called, is_string, leftmost_unwritten, unless};
use crate::rules::kinds::{
    accepts, alike, is_acl, is_condition, is_ip, is_ordered, is_searched, is_text, is_value,
    may_add,
};
use crate::rules::names::is_reached;
use crate::seen::{Arguments, Meaning, Seen};
use vcl_language::{Parameter, Scope, Slot, Subroutine, Takes, Word, has};
use vcl_tree::Comparison;
use vcl_values::Kind;

fn both_fit(left: bool, right: bool, a: Seen, b: Seen) -> Option<u32>
    ensures { result ≡ both_fit left right a b }
{
    if left {
        unless(right, b.first)
    } else {
        Some(a.first)
    }
}

fn ill_function(meaning: Meaning, given: Arguments, place: u32) -> Option<u32>
    ensures { result ≡ ill_function meaning given place }
{
    match meaning {
        Meaning::Function(function) => ill_called(function.takes, given, place),
        _ => None,
    }
}

fn is_timed(word: Word, given: Arguments) -> bool
    ensures { result ≡ is_timed word given }
{
    matches!(given, [Some(_), None, ..]) && !matches!(word.timed, Scope::Nowhere)
}

fn answer_takes(word: Word, given: Arguments) -> Takes
    ensures { result ≡ answer_takes word given }
{
    if is_timed(word, given) {
        [
            Slot::Needed(Parameter::Value(Kind::Duration)),
            Slot::Closed,
            Slot::Closed,
        ]
    } else {
        word.takes
    }
}

fn other_scope(word: Word, given: Arguments) -> Scope
    ensures { result ≡ other_scope word given }
{
    if is_timed(word, given) {
        word.scope
    } else {
        word.timed
    }
}

fn is_any_in(roots: &[Subroutine], scope: Scope) -> bool
    ensures { result ≡ list_any (λ s. has scope s) roots.now }
{
    roots.iter().any(|root| has(scope, *root))
}

// Whether the word takes other arguments in one of the subroutines.
fn is_other_in(roots: &[Subroutine], word: Word, given: Arguments) -> bool
    ensures { result ≡ list_any (λ s. has (other_scope word given) s) roots.now }
{
    is_any_in(roots, other_scope(word, given))
}

fn ill_answer(roots: &[Subroutine], meaning: Meaning, given: Arguments, place: u32) -> Option<u32>
    ensures { result ≡ ill_answer roots.now meaning given place }
{
    match meaning {
        Meaning::Word(word) => {
            if is_other_in(roots, word, given) {
                Some(place)
            } else {
                ill_called(answer_takes(word, given), given, place)
            }
        }
        _ => None,
    }
}

fn ill_set(meaning: Meaning, b: Seen) -> Option<u32>
    ensures { result ≡ ill_set meaning b }
{
    match meaning {
        Meaning::Variable(variable) => unless(accepts(variable.kind, b.sort), b.second),
        _ => None,
    }
}

fn ill_appended(meaning: Meaning, b: Seen) -> Option<u32>
    ensures { result ≡ ill_appended meaning b }
{
    match meaning {
        Meaning::Variable(variable) => {
            unless(is_text(variable.kind) && is_value(b.sort), b.second)
        }
        _ => None,
    }
}

fn ill_made(meaning: Meaning, b: Seen) -> Option<u32>
    ensures { result ≡ ill_made meaning b }
{
    match meaning {
        Meaning::Maker(_) => unless(matches!(b.arguments, [None, ..]), b.first),
        _ => None,
    }
}

fn ill_compared(how: Comparison, a: Seen, b: Seen) -> Option<u32>
    ensures { result ≡ misfit [] (Form.Compared how) a b }
{
    match how {
        Comparison::Equal => both_fit(is_value(a.sort), alike(a.sort, b.sort), a, b),
        Comparison::NotEqual => both_fit(is_value(a.sort), alike(a.sort, b.sort), a, b),
        Comparison::Less => both_fit(is_ordered(a.sort), alike(a.sort, b.sort), a, b),
        Comparison::LessOrEqual => both_fit(is_ordered(a.sort), alike(a.sort, b.sort), a, b),
        Comparison::Greater => both_fit(is_ordered(a.sort), alike(a.sort, b.sort), a, b),
        Comparison::GreaterOrEqual => both_fit(is_ordered(a.sort), alike(a.sort, b.sort), a, b),
        Comparison::Match => both_fit(is_value(a.sort), !is_ip(a.sort) || is_acl(b.sort), a, b),
        Comparison::NotMatch => {
            both_fit(is_value(a.sort), !is_ip(a.sort) || is_acl(b.sort), a, b)
        }
    }
}

/// The place at which two parts don't fit: types, and counts of arguments.
pub fn misfit(roots: &[Subroutine], form: Form, a: Seen, b: Seen) -> Option<u32>
    ensures { result ≡ misfit roots.now form a b }
{
    match form {
        Form::Junction => both_fit(is_condition(a.sort), is_condition(b.sort), a, b),
        Form::Compared(how) => ill_compared(how, a, b),
        Form::Added => both_fit(is_value(a.sort), may_add(a.sort, b.sort), a, b),
        Form::Subtracted => both_fit(is_ordered(a.sort), alike(a.sort, b.sort), a, b),
        Form::Inverted => unless(is_condition(b.sort), b.first),
        Form::Grouped => unless(is_value(b.sort), b.first),
        Form::Call => ill_function(a.meaning, b.arguments, a.first),
        Form::Set => ill_set(b.meaning, b),
        Form::Append => ill_appended(b.meaning, b),
        Form::New => ill_made(b.meaning, b),
        Form::Return => ill_answer(roots, b.meaning, b.arguments, b.first),
        Form::Condition => unless(is_condition(a.sort), a.first),
        Form::Argument => None,
        Form::Assignment => None,
        Form::Ordinary => None,
        Form::Applied => None,
        Form::Object => None,
        Form::Apart => None,
    }
}

fn fails(meaning: Meaning) -> bool
    ensures { result ≡ fails meaning }
{
    match meaning {
        Meaning::Word(word) => word.fails,
        _ => false,
    }
}

fn may_stand(form: Form, meaning: Meaning, root: Subroutine) -> bool
    ensures { result ≡ may_stand form meaning root }
{
    match form {
        Form::Set => has(Scope::Traffic, root),
        Form::Append => has(Scope::Traffic, root),
        Form::Ordinary => has(Scope::Traffic, root),
        Form::New => has(Scope::Init, root),
        Form::Return => !(fails(meaning) && has(Scope::Init, root)),
        _ => true,
    }
}

fn may_stand_in_all(roots: &[Subroutine], form: Form, meaning: Meaning) -> bool
    ensures { result ≡ list_all (λ s. may_stand form meaning s) roots.now }
{
    roots.iter().all(|root| may_stand(form, meaning, *root))
}

fn may_stand_in(roots: &[Subroutine], form: Form, meaning: Meaning) -> bool
    ensures { result ≡ may_stand_in roots.now form meaning }
{
    may_stand_in_all(roots, form, meaning) && (is_reached(roots) || !matches!(form, Form::New))
}

/// The place of a statement that may not stand in one of the subroutines.
pub fn misplaced(roots: &[Subroutine], form: Form, a: Seen, b: Seen) -> Option<u32>
    ensures { result ≡ misplaced roots.now form a b }
{
    unless(may_stand_in(roots, form, b.meaning), a.first)
}

fn unwritten_call(meaning: Meaning, given: Arguments) -> Option<u32>
    ensures { result ≡ unwritten_call meaning given }
{
    match meaning {
        Meaning::Function(function) => {
            let takes = function.takes;
            leftmost_unwritten(&takes, &given)
        }
        _ => None,
    }
}

/// The place of what must be one string and isn't.
pub fn unwritten_in(form: Form, a: Seen, b: Seen) -> Option<u32>
    ensures { result ≡ unwritten_in form a b }
{
    match form {
        Form::Compared(Comparison::Match) => {
            unless(!is_searched(a.sort) || is_string(b.literal), b.first)
        }
        Form::Compared(Comparison::NotMatch) => {
            unless(!is_searched(a.sort) || is_string(b.literal), b.first)
        }
        Form::Call => unwritten_call(a.meaning, b.arguments),
        _ => None,
    }
}
