ghost use Rattle.std.specs.Prelude.{◌≡◌, None, Some, not, string_bytes, if◌then◌else◌};
ghost use Rattle.std.specs.Char.{is_ascii_digit};
ghost use Rattle.std.specs.List.{list_all};
ghost use Rattle.std.specs.Option.{option_map};
ghost use Rattle.java_tokens.specs.Spelling.{number_of};
ghost use Rattle.planb_run.specs.Command.{command, command_with, is_budget, begins_with_dash};
ghost use Rattle.planb_run.specs.Words.{texts, command_of};

/// What the words of a command line ask: a file to run, the arguments of its program, and how many steps it may take.
#[derive(Clone, Copy, Debug)]
pub struct CommandLine<'w> {
    pub file: &'w str,
    pub arguments: &'w [String],
    pub steps: u64,
}

// The budget where the words name none.
const DEFAULT_STEPS: u64 = 1_000_000_000_000;

/// The command of these words, of which the first is the program's name. It is none where they aren't of the form
/// `planb FILE ARG..` or `planb --steps N FILE ARG..`. It takes no memory.
pub fn read_words(words: &[String]) -> Option<CommandLine<'_>>
    ensures { option_map command_of result ≡ command (texts words.now) }
{
    match words {
        [_, option, number, rest @ ..] => {
            if option.as_str() == "--steps" {
                command_line(rest, budget(number.as_str())?)
            } else {
                command_line(&words[1..], DEFAULT_STEPS)
            }
        }
        [_, rest @ ..] => command_line(rest, DEFAULT_STEPS),
        [] => None,
    }
}

// The file and the arguments. A word that begins with `-` is neither.
#[tactic(auto, using(crate::proofs::PlainWords::plain_command, crate::proofs::PlainWords::dashed_command))]
fn command_line(words: &[String], steps: u64) -> Option<CommandLine<'_>>
    ensures { option_map command_of result ≡ command_with steps (texts words.now) }
{
    let (file, arguments) = words.split_first()?;
    if !are_plain(words) {
        return None;
    }
    Some(CommandLine {
        file: file.as_str(),
        arguments,
        steps,
    })
}

// Whether none of the words begins with `-`.
fn are_plain(words: &[String]) -> bool
    ensures { result ≡ list_all (λ word. not (begins_with_dash (string_bytes word))) words.now }
{
    words.iter().all(|word| !word.starts_with('-'))
}

// The number that one to eighteen decimal digits spell. Other words have none.
#[tactic(auto, using(crate::proofs::Digits::parsed))]
fn budget(word: &str) -> Option<u64>
    ensures { result ≡ (if is_budget word.now then Some (number_of word.now) else None) }
{
    let digits = word.as_bytes();
    if digits.is_empty() || digits.len() > 18 || !are_digits(digits) {
        return None;
    }
    word.parse().ok()
}

fn are_digits(bytes: &[u8]) -> bool
    ensures { result ≡ list_all is_ascii_digit bytes.now }
{
    bytes.iter().all(|byte| byte.is_ascii_digit())
}
