ghost use Rattle.java_reading.specs.StmtLaws.{OneStatement, SeesDeclarations};

/// No two statements stand at the front of the same tokens, so each `else` has one `if`.
pub fn one_statement()
    ensures { OneStatement }
{}

/// The look-ahead at the beginning of a statement sees a declaration exactly where the statement is one.
pub fn declarations_are_seen()
    ensures { SeesDeclarations }
{}
