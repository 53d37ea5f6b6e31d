ghost use Rattle.std.specs.Prelude.{◌≡◌};
ghost use Rattle.evaluation.specs.Values.{same_object};

use heap_arena::Cell;

// Whether an object and another object or null are the same; `None` of other values.
pub fn same_object(a: &Cell<u32>, b: &Cell<u32>) -> Option<bool>
    ensures { result ≡ same_object a.now b.now }
{
    match a {
        Cell::Ref(o) => match b {
            Cell::Ref(r) => Some(*o == *r),
            Cell::Null => Some(false),
            Cell::Int(_) | Cell::Bool(_) | Cell::Text(_) => None,
        },
        Cell::Null => match b {
            Cell::Ref(_) => Some(false),
            Cell::Int(_) | Cell::Bool(_) | Cell::Null | Cell::Text(_) => None,
        },
        Cell::Int(_) | Cell::Bool(_) | Cell::Text(_) => None,
    }
}
