ghost use Rattle.std.specs.Prelude.{◌≡◌, List, []};
ghost use Rattle.core_tree.specs.WellTyped.{IsWellTyped};
ghost use Rattle.java_tokens.specs.declared.token.Token.{Token};
ghost use Rattle.java_syntax.specs.declared.class.FileTree.{FileTree};
ghost use Rattle.java_syntax.specs.Spells.{Spells};
ghost use Rattle.class_table.specs.Faults.{Clear};
ghost use Rattle.class_table.specs.Rules.{Breaks};
ghost use Rattle.class_table.specs.Table.{table_of};
ghost use Rattle.class_table.specs.TableFacts.{IsTable};
ghost use Rattle.java_members.specs.Files.{faults_of, program_of};

use token_law::names_have_own_tokens;

/// The program of a tree that spells some tokens and breaks none of the rules 1 to 21 is well typed. That its table is
/// in order is what `class_table` ensures of each table that it makes.
pub fn programs_are_typed()
    ensures { (tree : FileTree) (tokens : List Token) → Spells tree tokens → IsTable (table_of tree) → Clear (Breaks tree)
        → faults_of (table_of tree) tree ≡ [] → IsWellTyped (program_of (table_of tree) tree) }
{
    names_have_own_tokens();
}
