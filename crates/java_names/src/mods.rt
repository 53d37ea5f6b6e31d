//! What is asked of modifiers.

ghost use Rattle.std.specs.Prelude.{◌≡◌};
ghost use Rattle.class_table.specs.Members as spec;

use java_syntax::{Modifier, Mods};

/// Whether a member is static (JLS 8.3.1.1, 8.4.3.2).
pub fn is_static(mods: &Mods) -> bool
    ensures { result ≡ spec.is_static mods.now }
{
    mods.words
        .as_slice()
        .iter()
        .any(|word| matches!(word, Modifier::Static))
}

/// Whether a member is private (JLS 6.6.1).
pub fn is_private(mods: &Mods) -> bool
    ensures { result ≡ spec.is_private mods.now }
{
    mods.words
        .as_slice()
        .iter()
        .any(|word| matches!(word, Modifier::Private))
}
