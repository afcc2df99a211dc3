// What is written of an audit.
ghost use Rattle.std.specs.Prelude.{◌≡◌, IfOk};
ghost use Rattle.varn_audit.specs.Texts.{bad_text as text_of_bad, finding_text as text_of, legal_text as text_of_legal};

use audit_laws::Kind;
use journal_audit::Finding;
use std::alloc::{AllocError, Global};
use units::push_number;

fn legal_text(alloc: Global, entries: u64) -> Result<Vec<u8>, AllocError>
    ensures { IfOk result (λ text. text.items ≡ text_of_legal entries) }
{
    let mut text = Vec::new(alloc);
    text.extend_from_slice(b"legal ")?;
    push_number(&mut text, alloc, entries)?;
    text.extend_from_slice(b"\n")?;
    Ok(text)
}

fn bad_text(alloc: Global, line: u32, kind: Kind) -> Result<Vec<u8>, AllocError>
    ensures { IfOk result (λ text. text.items ≡ text_of_bad line kind) }
{
    let mut text = Vec::new(alloc);
    text.extend_from_slice(b"line ")?;
    push_number(&mut text, alloc, u64::from(line))?;
    text.extend_from_slice(b" kind ")?;
    push_number(&mut text, alloc, u64::from(kind.number()))?;
    text.extend_from_slice(b"\n")?;
    Ok(text)
}

/// The line that tells what was found.
pub(crate) fn finding_text(alloc: Global, finding: &Finding) -> Result<Vec<u8>, AllocError>
    ensures { IfOk result (λ text. text.items ≡ text_of finding.now) }
{
    match finding {
        Finding::Legal { entries, .. } => legal_text(alloc, *entries),
        Finding::Bad { line, kind, .. } => bad_text(alloc, *line, *kind),
    }
}
