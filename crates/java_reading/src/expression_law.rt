ghost use Rattle.java_reading.specs.ExprLaws.{OneExpression, FindsExpressions, GivesExpressions, RefusesExpressions, RefusesHighOnes, HeightIsLeast, SeesCasts};

/// No tokens are two expressions, whatever their heights.
pub fn one_expression()
    ensures { OneExpression }
{}

/// Reading finds the expressions that are written, and gives no others. It answers that a tree is too high only where
/// there are more tokens than the height that is allowed.
pub fn expressions_are_read()
    ensures finds { FindsExpressions }
    ensures gives { GivesExpressions }
    ensures refuses { RefusesExpressions }
    ensures too_high { RefusesHighOnes }
{}

/// The height of an expression is the least number with which it is written.
pub fn height_is_least()
    ensures { HeightIsLeast }
{}

/// The look-ahead after a `(` sees a cast exactly where a type, a `)` and a token that can begin its operand follow.
pub fn casts_are_seen()
    ensures { SeesCasts }
{}
