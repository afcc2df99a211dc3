// Sound texts, with what their runs need.
ghost use Rattle.std.specs.Prelude.{◌≡◌, IfOk, IfErr, OnOk};
ghost use Rattle.vcl_attributes.specs.BackendLimits.{limits_of};
ghost use Rattle.vcl_probes.specs.TextProbes.{probes_of};
ghost use Rattle.vcl_check.specs.Acls.{acls_in};
ghost use Rattle.vcl_check.specs.Texts.{says, pattern_texts, IsSound, IsRefused};

use crate::faults::{Built, first_fault, has_backend};
use crate::mentions::says;
use crate::patterns::pattern_texts;
use acl_match::Acl;
use std::alloc::{AllocError, Global};
use units::{Sequence, out_of_memory};
use vcl_attributes::{Limits, Probe, limits_of};
use vcl_probes::probes_of;
use vcl_symbols::NameIndex;
use vcl_tree::{Item, Refusal, Tree, VclError};
use vcl_values::Pattern;
use vmod_host::{Stored, VmodTable};

/// A text that is sound with the stored functions of a table. It keeps the patterns and the address lists that its strings
/// are, built once; the functions stay in the table, where each has the number of its entry in `stored`.
#[derive(Drop)]
pub struct Program {
    pub tree: Tree,
    /// The tags and signatures of the table.
    pub stored: Sequence<Stored>,
    built: Built,
    pub ghost sound: { ∥ IsSound tree.items stored ∥₁ },
    ghost patterned: { built.patterns.items ≡ pattern_texts (says tree.items) },
    ghost listed: { built.acls.items ≡ acls_in tree.items },
    probes: Vec<Probe>,
    limits: Vec<Limits>,
    ghost probed: { probes.items ≡ probes_of tree.items },
    ghost limited: { limits.items ≡ limits_of tree.items },
}

impl Program {
    /// The patterns that strings of the text are, in its order.
    pub fn patterns(&self) -> &[Pattern]
        ensures { result.now ≡ pattern_texts (says self.now.tree.items) }
    {
        self.built.patterns.as_slice()
    }

    /// The address lists that ACLs of the text are, in its order.
    pub fn acls(&self) -> &[Acl]
        ensures { result.now ≡ acls_in self.now.tree.items }
    {
        self.built.acls.as_slice()
    }

    /// The probes of the text's backends, in its order, with the usual values for what is left out.
    pub fn probes(&self) -> &[Probe]
        ensures { result.now ≡ probes_of self.now.tree.items }
    {
        self.probes.as_slice()
    }

    /// How long each backend of the text is waited for, and how many connections it is given, in its order.
    pub fn limits(&self) -> &[Limits]
        ensures { result.now ≡ limits_of self.now.tree.items }
    {
        self.limits.as_slice()
    }

    /// The texts of these patterns: one that is found in it has the number of its first pattern.
    pub fn pattern_texts(&self, alloc: Global) -> Result<NameIndex<'_>, AllocError>
        ensures { IfOk result (λ texts. texts ≡ pattern_texts (says self.entry.now.tree.items)) }
    {
        let mentioned = says(alloc, self.tree.items.as_slice())?;
        NameIndex::of(alloc, pattern_texts(alloc, mentioned.as_slice())?)
    }
}

/// Checks a tree against the language and the stored functions of a table: a program of it where it is sound, and its first
/// fault where it isn't.
pub fn check(alloc: Global, tree: Tree, vmods: &VmodTable) -> Result<Program, VclError>
    ensures tree { IfOk result (λ program. program.tree ≡ tree) }
    ensures stored { IfOk result (λ program. program.stored ≡ vmods.now.stored) }
    ensures sound { OnOk result (IsSound tree.items vmods.now.stored) }
    ensures refused { IfErr result (IsRefused tree.items vmods.now.stored) }
{
    let built = match built_of(alloc, &tree, vmods.stored.as_slice()) {
        Ok(built) => built,
        Err(why) => return Err(given_up(tree, why)),
    };
    match kept_of(alloc, tree.items.as_slice(), vmods.stored.as_slice()) {
        Ok(kept) => Ok(Program {
            tree,
            stored: kept.stored,
            built,
            probes: kept.probes,
            limits: kept.limits,
        }),
        Err(_) => Err(given_up((tree, built), VclError::NoMemory)),
    }
}

// Why there is no program. What is at hand is let go: here once, and not part by part on each way out where it was held.
fn given_up<V: Drop>(_held: V, why: VclError) -> VclError
    ensures { result ≡ why }
{
    why
}

// What is built of the strings of a text that is sound.
fn built_of(alloc: Global, tree: &Tree, stored: &[Stored]) -> Result<Built, VclError>
    ensures sound { OnOk result (IsSound tree.now.items stored.now) }
    ensures patterns { IfOk result (λ built. built.patterns.items ≡ pattern_texts (says tree.now.items)) }
    ensures acls { IfOk result (λ built. built.acls.items ≡ acls_in tree.now.items) }
    ensures refused { IfErr result (IsRefused tree.now.items stored.now) }
{
    let items = tree.items.as_slice();
    let found = first_fault(alloc, items, stored)?;
    match found.fault {
        Some(fault) => {
            let why = VclError::Refused {
                kind: fault.kind,
                place: fault.place,
            };
            Err(given_up(found, why))
        }
        None => {
            if has_backend(items) {
                Ok(found.built)
            } else {
                let why = VclError::Refused {
                    kind: Refusal::NoBackend,
                    place: 0,
                };
                Err(given_up(found, why))
            }
        }
    }
}

// What a program keeps beside its tree and what is built of its strings.
#[derive(Drop)]
struct Kept {
    stored: Sequence<Stored>,
    probes: Vec<Probe>,
    limits: Vec<Limits>,
}

fn kept_of(alloc: Global, items: &[Item], stored: &[Stored]) -> Result<Kept, AllocError>
    ensures stored { IfOk result (λ kept. kept.stored ≡ stored.now) }
    ensures probes { IfOk result (λ kept. kept.probes.items ≡ probes_of items.now) }
    ensures limits { IfOk result (λ kept. kept.limits.items ≡ limits_of items.now) }
{
    let stored = entries_of(alloc, stored)?;
    let Ok(probes) = probes_of(alloc, items) else {
        return Err(out_of_memory(stored));
    };
    let Ok(limits) = limits_of(alloc, items) else {
        return Err(out_of_memory((stored, probes)));
    };
    Ok(Kept {
        stored,
        probes,
        limits,
    })
}

// The same tags and signatures again.
fn entries_of(alloc: Global, stored: &[Stored]) -> Result<Sequence<Stored>, AllocError>
    ensures { IfOk result (λ entries. entries ≡ stored.now) }
{
    let mut entries = Sequence::new(alloc);
    for entry in stored {
        entries.push(Stored {
            tag: entry.tag,
            signature: entry.signature.copy(alloc)?,
        })?;
    }
    Ok(entries)
}
