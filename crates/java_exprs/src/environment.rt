use crate::constants::Constants;
use java_names::Symbols;
use java_syntax::TokenPlace;
use sqlite_items::Items;

/// What is known of a file beside the scope of an expression.
#[derive(Drop)]
pub struct Environment {
    /// What the file declares.
    pub symbols: Symbols,
    /// The constants that were read so far.
    pub constants: Constants,
    /// Where the tokens of the file begin, in order.
    pub places: Items<TokenPlace>,
}
