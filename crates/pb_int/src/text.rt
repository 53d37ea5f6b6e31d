ghost use Rattle.std.specs.Prelude.{◌≡◌, ◌≤◌, length};
ghost use Rattle.std.specs.Fmt.{signed_decimal};

use itoa::Buffer;

/// A buffer for the decimal text of one number at a time.
#[derive(Drop)]
pub struct Digits {
    inner: Buffer,
}

impl Digits {
    /// A buffer that holds no text yet.
    pub fn new() -> Self {
        Digits {
            inner: Buffer::new(),
        }
    }
}

/// The decimal text of `n`: its digits, with no leading zero, after a `-` where `n` is negative.
/// It has 11 characters at most, and overwrites the text that the buffer held before.
pub fn decimal(n: i32, buffer: &mut Digits) -> &str
    ensures text { result.now ≡ signed_decimal n }
    ensures few { length result.now ≤ 11 }
{
    buffer.inner.format(n)
}
