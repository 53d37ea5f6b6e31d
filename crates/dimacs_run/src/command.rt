ghost use Rattle.std.specs.Prelude.{◌≤◌, IfSome};

/// What the words of the command line ask.
#[derive(Clone, Copy, Debug, PartialEq, Eq)]
pub(crate) struct Words<'w> {
    pub(crate) check: bool,
    pub(crate) limit: u32,
    pub(crate) file: &'w str,
}

// The greatest limit.
const MOST_LINES: u32 = 1_000_000_000;

/// What these words ask, of which the first is the program's name.
pub(crate) fn read_words(words: &[String]) -> Option<Words<'_>>
    ensures { IfSome result (λ words. (1 ≤ words.limit) × (words.limit ≤ 1000000000)) }
{
    match words {
        [_, limit, file] => with_limit(false, limit.as_str(), file.as_str()),
        [_, option, limit, file] => {
            if option.as_str() != "--check" {
                return None;
            }
            with_limit(true, limit.as_str(), file.as_str())
        }
        _ => None,
    }
}

fn with_limit<'w>(check: bool, limit: &str, file: &'w str) -> Option<Words<'w>>
    ensures { IfSome result (λ words. (1 ≤ words.limit) × (words.limit ≤ 1000000000)) }
{
    let limit: u32 = limit.parse().ok()?;
    if limit == 0 || limit > MOST_LINES {
        return None;
    }
    Some(Words { check, limit, file })
}
