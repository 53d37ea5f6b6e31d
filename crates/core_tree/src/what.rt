/// What a run had no room for.
#[derive(Clone, Copy, Debug, PartialEq, Eq, Drop)]
pub enum What {
    /// The heap would have more than 16,777,216 cells.
    Cells,
    /// A text would have more than 1,048,576 code units.
    Text,
}
