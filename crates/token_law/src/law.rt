ghost use Rattle.java_syntax.specs.declared.class.FileTree.{FileTree};
ghost use Rattle.java_syntax.specs.Spells.{Spells};
ghost use Rattle.java_tokens.specs.declared.token.Token.{Token};
ghost use Rattle.std.specs.Prelude.{List};
ghost use Rattle.token_law.specs.Tokens.{HasOwnTokens};

/// In a tree that spells some tokens, fields and constants whose names are the same token are of the same type: each
/// name is a token of its own.
pub fn names_have_own_tokens()
    ensures { (tree : FileTree) (tokens : List Token) → Spells tree tokens → HasOwnTokens tree }
{}
