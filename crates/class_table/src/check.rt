//! The public call: the rules in turn, and then the rows.

ghost use Rattle.std.specs.Prelude.{◌≡◌, ◌<◌, ◌^◌, ◌≤◌, length, IfOk, IfErr, OnOk};
ghost use Rattle.class_table.specs.Ancestors.{AllEnd, IsKnown, parents_of};
ghost use Rattle.class_table.specs.Faults.{Blames, Clear};
ghost use Rattle.class_table.specs.Declarations.{declared_of};
ghost use Rattle.class_table.specs.Names.{class_names};
ghost use Rattle.class_table.specs.Lines.{lines_of};
ghost use Rattle.class_table.specs.Index.{IsIndex, counts_of, field_names_of, signatures_of};
ghost use Rattle.class_table.specs.Rules.{Breaks, ClassesFault, IndexFault, MemberFault, RowsFault};
ghost use Rattle.class_table.specs.Table.{rows_from, table_of};
ghost use Rattle.class_table.specs.TableFacts.{IsTable};

use crate::built_in::built_in;
use crate::declaration::Declaration;
use crate::declare::declare;
use crate::fields::{check_hidden, names_by_class};
use crate::index::{Index, Lookups};
use crate::keys::Keys;
use crate::limits::{check_main, counts};
use crate::lines::lines;
use crate::methods::{check_makers, signatures_by_class};
use crate::names::{class_keys, library_keys};
use crate::overriding::check_overriding;
use crate::row::{ClassRow, ClassTable};
use crate::rows::{place_all, rows};
use java_syntax::{CheckError, ClassTree, FileTree};
use java_tokens::Name;
use sqlite_items::Items;
use std::alloc::Global;

/// What is looked up in the classes.
#[tactic(auto, using(crate::proofs::CheckLemmas::index_found))]
fn lookups(alloc: Global, classes: &[Declaration]) -> Result<Lookups, CheckError>
    requires few { length classes.now ≤ 1018 }
    requires known { IsKnown (parents_of classes.now) }
    ensures lines { IfOk result (λ l. l.lines ≡ lines_of classes.now) }
    ensures fields { IfOk result (λ l. l.fields ≡ field_names_of classes.now) }
    ensures methods { IfOk result (λ l. l.methods ≡ signatures_of classes.now) }
    ensures counts { IfOk result (λ l. l.counts ≡ counts_of classes.now) }
    ensures ends { OnOk result (AllEnd (parents_of classes.now)) }
    ensures fault { IfErr result (Blames (IndexFault classes.now)) }
    ensures clear { OnOk result (Clear (IndexFault classes.now)) }
{
    Ok(Lookups {
        lines: lines(alloc, classes)?,
        fields: names_by_class(alloc, classes)?,
        methods: signatures_by_class(alloc, classes)?,
        counts: counts(alloc, classes)?,
    })
}

/// The classes with what is looked up in them.
fn make_index(
    alloc: Global,
    names: Keys<Name>,
    declared: Items<Declaration>,
) -> Result<Index, CheckError>
    requires few { length declared ≤ 1018 }
    requires known { IsKnown (parents_of declared) }
    ensures names { IfOk result (λ index. index.names ≡ names) }
    ensures declared { IfOk result (λ index. index.declared ≡ declared) }
    ensures index { IfOk result IsIndex }
    ensures ends { OnOk result (AllEnd (parents_of declared)) }
    ensures fault { IfErr result (Blames (IndexFault declared)) }
    ensures clear { OnOk result (Clear (IndexFault declared)) }
{
    let lookups = lookups(alloc, declared.as_slice())?;
    Ok(Index {
        names,
        declared,
        lines: lookups.lines,
        fields: lookups.fields,
        methods: lookups.methods,
        counts: lookups.counts,
    })
}

/// The classes of a file and the built-in ones.
#[tactic(auto, using(crate::proofs::CheckLemmas::classes_found))]
fn classes_of(alloc: Global, classes: &[ClassTree]) -> Result<Index, CheckError>
    ensures names { IfOk result (λ index. index.names ≡ class_names classes.now) }
    ensures declared { IfOk result (λ index. index.declared ≡ declared_of classes.now) }
    ensures index { IfOk result IsIndex }
    ensures few { OnOk result (length classes.now ≤ 1000) }
    ensures ends { OnOk result (AllEnd (parents_of (declared_of classes.now))) }
    ensures fault { IfErr result (Blames (ClassesFault classes.now)) }
    ensures clear { OnOk result (Clear (ClassesFault classes.now)) }
{
    let library = library_keys(alloc)?;
    let built = built_in(alloc)?;
    let names = class_keys(alloc, built.as_slice(), &library, classes)?;
    let declared = declare(alloc, built, &names, &library, classes)?;
    make_index(alloc, names, declared)
}

/// Checks that the members of the classes break no rule together.
#[tactic(auto, using(crate::proofs::CheckLemmas::members_found))]
fn check_members(alloc: Global, index: &Index, declared: &[Declaration]) -> Result<(), CheckError>
    requires index { IsIndex index.now }
    requires few { length index.now.names < 2 ^ 32 }
    requires same { declared.now ≡ index.now.declared }
    requires ends { AllEnd (parents_of index.now.declared) }
    ensures fault { IfErr result (Blames (MemberFault index.now.names index.now.declared declared.now)) }
    ensures clear { OnOk result (Clear (MemberFault index.now.names index.now.declared declared.now)) }
{
    check_hidden(index, declared)?;
    check_makers(alloc, declared)?;
    check_overriding(index, declared)?;
    check_main(alloc, declared)
}

/// The rows of classes whose members break no rule together.
#[tactic(auto, using(crate::proofs::CheckLemmas::rows_found))]
fn rows_of(
    alloc: Global,
    index: &Index,
    declared: &[Declaration],
) -> Result<Items<ClassRow>, CheckError>
    requires index { IsIndex index.now }
    requires few { length index.now.names < 2 ^ 32 }
    requires same { declared.now ≡ index.now.declared }
    requires ends { AllEnd (parents_of index.now.declared) }
    ensures rows { IfOk result (λ rows. rows ≡ rows_from index.now.declared 0 declared.now) }
    ensures fault { IfErr result (Blames (RowsFault index.now.names index.now.declared declared.now)) }
    ensures clear { OnOk result (Clear (RowsFault index.now.names index.now.declared declared.now)) }
{
    check_members(alloc, index, declared)?;
    let parts = place_all(alloc, index, declared)?;
    Ok(rows(alloc, index, parts.as_slice(), declared)?)
}

/// The class table of a file (JLS 6.3, 8.1 to 8.4, 8.8): a row for each class by its number, counted from 0, the
/// built-in ones first and then those of the file in text order.
///
/// # Errors
/// `Fault` with the number of a rule of 1 to 9 and the number of a token, counted from 0, at which that rule is broken:
/// any one of them where several are. `OutOfMemory` where memory runs out.
#[tactic(auto, using(crate::proofs::CheckLemmas::table_found))]
pub fn table(alloc: Global, tree: &FileTree) -> Result<ClassTable, CheckError>
    ensures table { IfOk result (λ table. table ≡ table_of tree.now) }
    ensures facts { IfOk result IsTable }
    ensures fault { IfErr result (Blames (Breaks tree.now)) }
    ensures accepted { OnOk result (Clear (Breaks tree.now)) }
{
    let index = classes_of(alloc, tree.classes.as_slice())?;
    let classes = rows_of(alloc, &index, index.declared.as_slice())?;
    Ok(ClassTable {
        classes,
        names: index.names,
    })
}
