ghost use Rattle.std.specs.Prelude.{◌≡◌, ◌≤◌, ℕ, IsTrue, false, length, IfSome, IfNone};
ghost use Rattle.java_tokens.specs.Reading.{starts_with, IsLongestOperator};

use crate::Operator;
use crate::text::starts_with;

/// Every separator and operator once, the longer ones first.
const OPERATORS: [Operator; 50] = [
    Operator::UnsignedShiftRightAssign,
    Operator::UnsignedShiftRight,
    Operator::ShiftLeftAssign,
    Operator::ShiftRightAssign,
    Operator::Iff,
    Operator::DotDot,
    Operator::Equal,
    Operator::LessEqual,
    Operator::GreaterEqual,
    Operator::NotEqual,
    Operator::AndAnd,
    Operator::OrOr,
    Operator::Increment,
    Operator::Decrement,
    Operator::ShiftLeft,
    Operator::ShiftRight,
    Operator::PlusAssign,
    Operator::MinusAssign,
    Operator::StarAssign,
    Operator::SlashAssign,
    Operator::AndAssign,
    Operator::OrAssign,
    Operator::XorAssign,
    Operator::PercentAssign,
    Operator::Implies,
    Operator::LeftParen,
    Operator::RightParen,
    Operator::LeftBrace,
    Operator::RightBrace,
    Operator::LeftBracket,
    Operator::RightBracket,
    Operator::Semicolon,
    Operator::Comma,
    Operator::Dot,
    Operator::Assign,
    Operator::Greater,
    Operator::Less,
    Operator::Not,
    Operator::Tilde,
    Operator::Question,
    Operator::Colon,
    Operator::Hash,
    Operator::Plus,
    Operator::Minus,
    Operator::Star,
    Operator::Slash,
    Operator::And,
    Operator::Or,
    Operator::Xor,
    Operator::Percent,
];

impl Operator {
    ghost use Rattle.java_tokens.specs.declared.token.Operator.{Operator};
    ghost use Rattle.java_tokens.specs.Spelling.{operator_text};

    /// The operator's text (JLS 3.11, 3.12).
    pub(crate) fn text(self) -> &'static str
        ensures { result.now ≡ operator_text self }
    {
        match self {
            Operator::LeftParen => "(",
            Operator::RightParen => ")",
            Operator::LeftBrace => "{",
            Operator::RightBrace => "}",
            Operator::LeftBracket => "[",
            Operator::RightBracket => "]",
            Operator::Semicolon => ";",
            Operator::Comma => ",",
            Operator::Dot => ".",
            Operator::DotDot => "..",
            Operator::Assign => "=",
            Operator::Greater => ">",
            Operator::Less => "<",
            Operator::Not => "!",
            Operator::Tilde => "~",
            Operator::Question => "?",
            Operator::Colon => ":",
            Operator::Hash => "#",
            Operator::Equal => "==",
            Operator::LessEqual => "<=",
            Operator::GreaterEqual => ">=",
            Operator::NotEqual => "!=",
            Operator::AndAnd => "&&",
            Operator::OrOr => "||",
            Operator::Increment => "++",
            Operator::Decrement => "--",
            Operator::Plus => "+",
            Operator::Minus => "-",
            Operator::Star => "*",
            Operator::Slash => "/",
            Operator::And => "&",
            Operator::Or => "|",
            Operator::Xor => "^",
            Operator::Percent => "%",
            Operator::ShiftLeft => "<<",
            Operator::ShiftRight => ">>",
            Operator::UnsignedShiftRight => ">>>",
            Operator::PlusAssign => "+=",
            Operator::MinusAssign => "-=",
            Operator::StarAssign => "*=",
            Operator::SlashAssign => "/=",
            Operator::AndAssign => "&=",
            Operator::OrAssign => "|=",
            Operator::XorAssign => "^=",
            Operator::PercentAssign => "%=",
            Operator::ShiftLeftAssign => "<<=",
            Operator::ShiftRightAssign => ">>=",
            Operator::UnsignedShiftRightAssign => ">>>=",
            Operator::Implies => "=>",
            Operator::Iff => "<=>",
        }
    }

    /// The longest separator or operator that these characters begin with, if they begin with one.
    pub(crate) fn at_front(characters: &[char]) -> Option<Operator>
        ensures some { IfSome result (IsLongestOperator characters.now) }
        ensures none { IfNone result ((o : Operator) → starts_with characters.now (operator_text o) ≡ false) }
    {
        for operator in OPERATORS {
            if starts_with(characters, operator.text()) {
                return Some(operator);
            }
        }
        None
    }
}
