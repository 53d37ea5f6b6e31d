ghost use Rattle.spec_reading.specs.TermLaws.{OneTerm, FindsTerms, GivesTerms, RefusesTerms, RefusesHighTerms, TermHeightIsLeast};

/// No tokens are two terms, whatever their heights.
pub fn one_term()
    ensures { OneTerm }
{}

/// Reading finds the terms that are written, and gives no others. It answers that a tree is too high only where there
/// are more tokens than the height that is allowed.
pub fn terms_are_read()
    ensures finds { FindsTerms }
    ensures gives { GivesTerms }
    ensures refuses { RefusesTerms }
    ensures too_high { RefusesHighTerms }
{}

/// The height of a term is the least number with which it is written.
pub fn term_height_is_least()
    ensures { TermHeightIsLeast }
{}
