//! What the built-in classes declare.

ghost use Rattle.std.specs.Prelude.{◌≡◌, IfOk, map, option_map};
ghost use Rattle.core_tree.specs.BuiltIn.{number_of, parent_of};
ghost use Rattle.class_table.specs.BuiltIn as spec;

use crate::declaration::Declaration;
use crate::row::{FieldRow, MakerRow, MethodRow};
use core_tree::{BuiltIn, Shared};
use java_syntax::{BaseType, Ident, Modifier, Mods, TypeTree};
use java_tokens::Name;
use sqlite_items::Items;
use std::alloc::{AllocError, Global};

/// The name that is spelled by these ASCII characters.
pub fn name(alloc: Global, text: &[u8]) -> Result<Name, AllocError>
    ensures { IfOk result (λ name. name ≡ text.now) }
{
    let characters = text.iter().map(|byte| char::from(*byte)).collect(alloc)?;
    Ok(Name::new(characters))
}

fn string_type(alloc: Global) -> Result<TypeTree, AllocError>
    ensures { IfOk result (λ ty. ty ≡ spec.string_type) }
{
    Ok(TypeTree {
        base: BaseType::Class(Ident {
            at: 0,
            name: name(alloc, b"String")?,
        }),
        dimensions: 0,
    })
}

fn public_mods(alloc: Global) -> Result<Mods, AllocError>
    ensures { IfOk result (λ mods. mods ≡ spec.public_mods) }
{
    Ok(Mods {
        words: Items::from_slice(alloc, &[Modifier::Public])?,
    })
}

fn maker(alloc: Global, params: Items<TypeTree>) -> Result<MakerRow, AllocError>
    ensures { IfOk result (λ row. row ≡ spec.maker_of params) }
{
    Ok(MakerRow {
        params,
        throws: Items::new(alloc),
        mods: public_mods(alloc)?,
        at: 0,
    })
}

fn exception_makers(alloc: Global) -> Result<Items<MakerRow>, AllocError>
    ensures { IfOk result (λ makers. makers ≡ spec.exception_makers) }
{
    let mut makers = Items::new(alloc);
    makers.push(maker(alloc, Items::new(alloc))?)?;
    let mut params = Items::new(alloc);
    params.push(string_type(alloc)?)?;
    makers.push(maker(alloc, params)?)?;
    Ok(makers)
}

fn message_field(alloc: Global) -> Result<FieldRow, AllocError>
    ensures { IfOk result (λ row. row ≡ spec.message_field) }
{
    Ok(FieldRow {
        name: name(alloc, b"#message")?,
        ty: string_type(alloc)?,
        owner: 1,
        mods: Mods {
            words: Items::new(alloc),
        },
        place: None,
        at: 0,
    })
}

fn get_message(alloc: Global) -> Result<MethodRow, AllocError>
    ensures { IfOk result (λ row. row ≡ spec.get_message) }
{
    Ok(MethodRow {
        name: name(alloc, b"getMessage")?,
        params: Items::new(alloc),
        names: Items::new(alloc),
        answer: Some(string_type(alloc)?),
        throws: Items::new(alloc),
        mods: public_mods(alloc)?,
        at: 0,
    })
}

fn fields(alloc: Global, class: BuiltIn) -> Result<Items<FieldRow>, AllocError>
    ensures { IfOk result (λ fields. fields ≡ spec.fields_of class) }
{
    let mut fields = Items::new(alloc);
    match class {
        BuiltIn::Throwable => fields.push(message_field(alloc)?)?,
        _ => {}
    }
    Ok(fields)
}

fn methods(alloc: Global, class: BuiltIn) -> Result<Items<MethodRow>, AllocError>
    ensures { IfOk result (λ methods. methods ≡ spec.methods_of class) }
{
    let mut methods = Items::new(alloc);
    match class {
        BuiltIn::Throwable => methods.push(get_message(alloc)?)?,
        _ => {}
    }
    Ok(methods)
}

fn makers(alloc: Global, class: BuiltIn) -> Result<Items<MakerRow>, AllocError>
    ensures { IfOk result (λ makers. makers ≡ spec.makers_of class) }
{
    match class {
        BuiltIn::Object => {
            let mut makers = Items::new(alloc);
            makers.push(maker(alloc, Items::new(alloc))?)?;
            Ok(makers)
        }
        _ => exception_makers(alloc),
    }
}

fn parent(class: BuiltIn) -> Option<u32>
    ensures { result ≡ option_map number_of (parent_of class) }
{
    match class.parent() {
        Some(parent) => Some(parent.number()),
        None => None,
    }
}

fn declaration(alloc: Global, class: BuiltIn) -> Result<Declaration, AllocError>
    ensures { IfOk result (λ d. d ≡ spec.declaration_of class) }
{
    Ok(Declaration {
        name: name(alloc, class.name().as_bytes())?,
        parent: parent(class),
        fields: fields(alloc, class)?,
        methods: Shared::new(alloc, methods(alloc, class)?)?,
        makers: Shared::new(alloc, makers(alloc, class)?)?,
        at: 0,
    })
}

// What each of some built-in classes declares.
fn declarations(alloc: Global, classes: &[BuiltIn]) -> Result<Items<Declaration>, AllocError>
    ensures { IfOk result (λ all. all ≡ map spec.declaration_of classes.now) }
{
    let mut all = Items::new(alloc);
    for class in classes {
        all.push(declaration(alloc, *class)?)?;
    }
    Ok(all)
}

/// The built-in classes by their numbers.
#[tactic(auto, unfolding(crate::specs::BuiltIn::built_in))]
pub fn built_in(alloc: Global) -> Result<Items<Declaration>, AllocError>
    ensures { IfOk result (λ classes. classes ≡ spec.built_in) }
{
    declarations(alloc, &BuiltIn::ALL)
}
