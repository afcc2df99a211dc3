// What the first word of a condition names.
ghost use Rattle.std.specs.Prelude.{◌≡◌, take, drop, length, IfOk};
ghost use Rattle.ban_expr.specs.Fields.{subject_of as subject_named, header_of, fixed_of, is_header as is_header_of, text_field as field_of};

use cache_law::{TextField, TimeField};
use std::alloc::{AllocError, Global};
use units::Text;

/// A field that is a text; a header's name stands behind the front of its word.
#[derive(Clone, Copy, Debug)]
pub enum TextSubject {
    RequestUrl,
    RequestHeader,
    ObjectStatus,
    ObjectHeader,
}

/// What a condition looks at.
#[derive(Clone, Copy, Debug)]
pub enum Subject {
    OfText(TextSubject),
    OfTime(TimeField),
}

/// The bytes of `req.http.` and of `obj.http.`.
const FRONT: usize = 9;

/// What the word names.
#[tactic(auto, unfolding(crate::specs::Fields::subject_of))]
pub fn subject_of(word: &[u8]) -> Option<Subject>
    ensures { result ≡ subject_named word.now }
{
    fixed_subject(word).or(header_subject(word))
}

// What the word names that is a field's whole.
fn fixed_subject(word: &[u8]) -> Option<Subject>
    ensures { result ≡ fixed_of word.now }
{
    if word == b"req.url".as_slice() {
        Some(Subject::OfText(TextSubject::RequestUrl))
    } else if word == b"obj.status".as_slice() {
        Some(Subject::OfText(TextSubject::ObjectStatus))
    } else if word == b"obj.ttl".as_slice() {
        Some(Subject::OfTime(TimeField::Ttl))
    } else if word == b"obj.age".as_slice() {
        Some(Subject::OfTime(TimeField::Age))
    } else if word == b"obj.grace".as_slice() {
        Some(Subject::OfTime(TimeField::Grace))
    } else if word == b"obj.keep".as_slice() {
        Some(Subject::OfTime(TimeField::Keep))
    } else {
        None
    }
}

fn header_subject(word: &[u8]) -> Option<Subject>
    ensures { result ≡ header_of word.now }
{
    if is_header(b"req.http.", word) {
        Some(Subject::OfText(TextSubject::RequestHeader))
    } else if is_header(b"obj.http.", word) {
        Some(Subject::OfText(TextSubject::ObjectHeader))
    } else {
        None
    }
}

// Whether the word is the front of a header with a name behind it.
fn is_header(front: &[u8], word: &[u8]) -> bool
    ensures { result ≡ is_header_of front.now word.now }
{
    word.len() > front.len() && &word[..front.len()] == front
}

/// The field that the subject is, where the word names it.
pub fn text_field(alloc: Global, subject: TextSubject, word: &[u8]) -> Result<TextField, AllocError>
    ensures { IfOk result (λ field. field ≡ field_of subject word.now) }
{
    match subject {
        TextSubject::RequestUrl => Ok(TextField::RequestUrl),
        TextSubject::RequestHeader => Ok(TextField::RequestHeader(header_name(alloc, word)?)),
        TextSubject::ObjectStatus => Ok(TextField::ObjectStatus),
        TextSubject::ObjectHeader => Ok(TextField::ObjectHeader(header_name(alloc, word)?)),
    }
}

// What stands behind the front of a header's word.
fn header_name(alloc: Global, word: &[u8]) -> Result<Text, AllocError>
    ensures { IfOk result (λ name. name ≡ drop 9 word.now) }
{
    Text::of(alloc, word.get(FRONT..).unwrap_or(&[]))
}
