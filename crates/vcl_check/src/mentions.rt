// What a text says of names, in its order.
ghost use Rattle.std.specs.Prelude.{◌≡◌, ◌∷◌, ◌++◌, [], OnOk, IfOk, slice_get, option_and_then};
ghost use Rattle.vcl_tree.specs.Phrase.{Node, Called, Named, Either, Both, chain, list_of};
ghost use Rattle.vcl_tree.specs.ExpressionView.{sum_of, sum_label};
ghost use Rattle.vcl_language.specs.Functions.{function_named};
ghost use Rattle.vcl_check.specs.Mentions.{said, said_of, said_string, called_string, parts, has_pattern, with_found, with_strings, is_init, object_kind, with_mentions, with_item, with_items};

use std::alloc::{AllocError, Global};
use std::marker::Model;
use units::Text;
use vcl_language::{Parameter, Slot, function_named};
use vcl_tree::{
    Action, Addend, Block, Branch, Comparison, Expression, Item, Name, Operation, Statement,
};

/// What a name, or a string, is mentioned as.
#[derive(Clone, Copy)]
pub enum MentionKind {
    Import,
    Backend,
    Probe,
    Acl,
    Subroutine,
    /// An object that `new` makes in vcl_init.
    Object,
    /// A name of `new` in another subroutine, where no object is made.
    NoObject,
    /// A call of a subroutine.
    Call,
    /// A string that must be a pattern.
    Pattern,
}

/// A name or a string at its place.
#[derive(Drop)]
pub struct Mention<'t> {
    pub kind: MentionKind,
    pub place: u32,
    pub name: &'t [u8],
    /// An object's maker, or the subroutine that calls.
    pub other: &'t [u8],
}

impl<'t> Model for Mention<'t> {
    ghost use Rattle.vcl_check.specs.Mentions.{Said};

    ghost Value = { Said };

    ghost view = { λ m. record { kind = m.kind; place = m.place; name = m.name.now; other = m.other.now } };
}

fn push_mention<'t>(
    out: &mut Vec<Mention<'t>>,
    kind: MentionKind,
    place: u32,
    name: &'t [u8],
    other: &'t [u8],
) -> Result<(), AllocError>
    ensures { OnOk result (out.new.items ≡ out.old.items ++ said kind place name.entry.now other.entry.now ∷ []) }
{
    out.push(Mention {
        kind,
        place,
        name,
        other,
    })?;
    Ok(())
}

// The string that an expression is.
fn string_in(e: &Expression) -> Option<Mention<'_>>
    ensures { result ≡ said_string e.now }
{
    match &e.operation {
        Operation::String(place, text) => Some(Mention {
            kind: MentionKind::Pattern,
            place: *place,
            name: text.bytes(),
            other: b"",
        }),
        _ => None,
    }
}

fn found<'t>(out: &mut Vec<Mention<'t>>, mention: Option<Mention<'t>>) -> Result<(), AllocError>
    ensures { OnOk result (out.new.items ≡ with_found out.old.items mention.entry) }
{
    match mention {
        None => Ok(()),
        Some(mention) => {
            out.push(mention)?;
            Ok(())
        }
    }
}

fn has_pattern(name: &[u8]) -> bool
    ensures { result ≡ has_pattern (function_named name.now) }
{
    match function_named(name) {
        None => false,
        Some(function) => matches!(function.takes, [_, Slot::Needed(Parameter::Pattern), _]),
    }
}

fn second_string(arguments: &[Expression]) -> Option<Mention<'_>>
    ensures { result ≡ option_and_then said_string (slice_get arguments.now 1) }
{
    match arguments.get(1) {
        None => None,
        Some(second) => string_in(second),
    }
}

// The strings of an expression that must be patterns.
#[cycle(in_expression)]
fn in_expression<'t>(out: &mut Vec<Mention<'t>>, e: &'t Expression) -> Result<(), AllocError>
    ensures { OnOk result (out.new.items ≡ with_strings out.old.items e.entry.now) }
{
    match &e.operation {
        Operation::Any(first, second, others) => in_operands(out, first, second, others),
        Operation::All(first, second, others) => in_operands(out, first, second, others),
        Operation::Sum(first, second, others) => in_terms(out, first, second, others),
        Operation::Call(_, name, arguments) => {
            in_arguments(out, arguments)?;
            found_in_call(out, name, arguments)
        }
        Operation::Compare(how, a, b) => {
            in_expression(out, a)?;
            in_expression(out, b)?;
            match how {
                Comparison::Match => found(out, string_in(b)),
                Comparison::NotMatch => found(out, string_in(b)),
                _ => Ok(()),
            }
        }
        Operation::Not(_, operand) => in_expression(out, operand),
        Operation::Group(_, inner) => in_expression(out, inner),
        _ => Ok(()),
    }
}

// Those of operands of truth, whichever of the two signs ties them.
#[cycle(in_expression)]
fn in_operands<'t>(
    out: &mut Vec<Mention<'t>>,
    first: &'t Expression,
    second: &'t Expression,
    others: &'t [Expression],
) -> Result<(), AllocError>
    ensures any { OnOk result (out.new.items ≡ with_strings out.old.items (chain Either (Node Either first.entry.now second.entry.now) others.entry.now)) }
    ensures all { OnOk result (out.new.items ≡ with_strings out.old.items (chain Both (Node Both first.entry.now second.entry.now) others.entry.now)) }
{
    in_expression(out, first)?;
    in_expression(out, second)?;
    'operands: for operand in others {
        in_expression(out, operand)?;
    }
    Ok(())
}

// Those of a sum.
#[cycle(in_expression)]
fn in_terms<'t>(
    out: &mut Vec<Mention<'t>>,
    first: &'t Expression,
    second: &'t Addend,
    others: &'t [Addend],
) -> Result<(), AllocError>
    ensures { OnOk result (out.new.items ≡ with_strings out.old.items (sum_of (Node (sum_label second.entry.now.sign) first.entry.now second.entry.now.term) others.entry.now)) }
{
    in_expression(out, first)?;
    in_expression(out, &second.term)?;
    'terms: for addend in others {
        in_expression(out, &addend.term)?;
    }
    Ok(())
}

// Those of arguments.
#[cycle(in_expression)]
fn in_arguments<'t>(
    out: &mut Vec<Mention<'t>>,
    arguments: &'t [Expression],
) -> Result<(), AllocError>
    ensures { OnOk result (out.new.items ≡ with_strings out.old.items (list_of arguments.entry.now)) }
{
    'arguments: for argument in arguments {
        in_expression(out, argument)?;
    }
    Ok(())
}

fn found_in_call<'t>(
    out: &mut Vec<Mention<'t>>,
    name: &'t Text,
    arguments: &'t [Expression],
) -> Result<(), AllocError>
    ensures { OnOk result (out.new.items ≡ with_found out.old.items (called_string (Named 0 name.entry.now) (list_of arguments.entry.now))) }
{
    found(out, called_string(name.bytes(), arguments))
}

fn called_string<'t>(name: &[u8], arguments: &'t [Expression]) -> Option<Mention<'t>>
    ensures { result ≡ called_string (Named 0 name.now) (list_of arguments.now) }
{
    if has_pattern(name) {
        second_in(arguments)
    } else {
        None
    }
}

fn second_in(arguments: &[Expression]) -> Option<Mention<'_>>
    ensures { result ≡ option_and_then said_string (slice_get (parts (list_of arguments.now)) 1) }
{
    second_string(arguments)
}

/// What a block of this subroutine says.
#[cycle(mentions)]
fn in_block<'t>(
    out: &mut Vec<Mention<'t>>,
    owner: &'t [u8],
    block: &'t Block,
) -> Result<(), AllocError>
    ensures { OnOk result (out.new.items ≡ with_mentions owner.entry.now out.old.items block.entry.now) }
{
    'statements: for statement in &block.statements {
        in_statement(out, owner, statement)?;
    }
    Ok(())
}

#[cycle(mentions)]
fn in_statement<'t>(
    out: &mut Vec<Mention<'t>>,
    owner: &'t [u8],
    statement: &'t Statement,
) -> Result<(), AllocError>
    ensures { OnOk result (out.new.items ≡ with_mentions owner.entry.now out.old.items statement.entry.now) }
{
    match &statement.action {
        Action::Set(_, _, value) => in_expression(out, value),
        Action::Append(_, _, value) => in_expression(out, value),
        Action::Unset(_, _) => Ok(()),
        Action::Call(_, name) => {
            push_mention(out, MentionKind::Call, name.place, name.text.bytes(), owner)
        }
        Action::New(_, name, maker, arguments) => {
            let kind = object_kind(owner);
            let place = name.place;
            push_mention(out, kind, place, name.text.bytes(), maker.text.bytes())?;
            in_arguments(out, arguments)
        }
        Action::If(_, first, others, otherwise) => {
            in_branch(out, owner, first)?;
            'branches: for other in others {
                in_branch(out, owner, other)?;
            }
            match otherwise {
                None => Ok(()),
                Some(last) => in_block(out, owner, last),
            }
        }
        Action::Return(_, _) => Ok(()),
        Action::ReturnWith(_, _, arguments) => in_arguments(out, arguments),
        Action::Run(name, arguments) => {
            in_arguments(out, arguments)?;
            found_in_call(out, &name.text, arguments)
        }
    }
}

/// Whether a subroutine is the one in which objects are made.
pub fn is_init(name: &[u8]) -> bool
    ensures { result ≡ is_init name.now }
{
    name == b"vcl_init".as_slice()
}

fn object_kind(owner: &[u8]) -> MentionKind
    ensures { result ≡ object_kind owner.now }
{
    if is_init(owner) {
        MentionKind::Object
    } else {
        MentionKind::NoObject
    }
}

#[cycle(mentions)]
fn in_branch<'t>(
    out: &mut Vec<Mention<'t>>,
    owner: &'t [u8],
    branch: &'t Branch,
) -> Result<(), AllocError>
    ensures { OnOk result (out.new.items ≡ with_mentions owner.entry.now out.old.items branch.entry.now) }
{
    in_expression(out, &branch.condition)?;
    in_block(out, owner, &branch.block)
}

fn of_kind<'t>(
    out: &mut Vec<Mention<'t>>,
    kind: MentionKind,
    name: &'t Name,
) -> Result<(), AllocError>
    ensures { OnOk result (out.new.items ≡ out.old.items ++ said_of kind name.entry.now ∷ []) }
{
    push_mention(out, kind, name.place, name.text.bytes(), b"")
}

fn in_item<'t>(out: &mut Vec<Mention<'t>>, item: &'t Item) -> Result<(), AllocError>
    ensures { OnOk result (out.new.items ≡ with_item out.old.items item.entry.now) }
{
    match item {
        Item::Import(_, name) => of_kind(out, MentionKind::Import, name),
        Item::Backend(_, name, _) => of_kind(out, MentionKind::Backend, name),
        Item::NoBackend(_, name) => of_kind(out, MentionKind::Backend, name),
        Item::Probe(_, name, _) => of_kind(out, MentionKind::Probe, name),
        Item::Acl(_, name, _) => of_kind(out, MentionKind::Acl, name),
        Item::Sub(_, name, block) => {
            of_kind(out, MentionKind::Subroutine, name)?;
            in_block(out, name.text.bytes(), block)
        }
    }
}

/// What the items of a text say of names.
pub fn says(alloc: Global, items: &[Item]) -> Result<Vec<Mention<'_>>, AllocError>
    ensures { IfOk result (λ out. out.items ≡ with_items [] items.entry.now) }
{
    let mut out = Vec::new(alloc);
    for item in items {
        in_item(&mut out, item)?;
    }
    Ok(out)
}
