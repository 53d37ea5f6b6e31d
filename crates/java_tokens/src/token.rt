use crate::Name;

/// A token, with the bytes that it takes, from `start` to before `end`, both counted from 0, and the place of its first
/// character: line and column count from 1, the column in characters.
#[derive(Debug, Drop)]
pub struct Token {
    pub kind: TokenKind,
    pub start: u32,
    pub end: u32,
    pub line: u32,
    pub column: u32,
}

/// What a token is (JLS 3.5).
#[derive(Debug, Drop)]
pub enum TokenKind {
    /// An identifier (JLS 3.8).
    Ident(Name),
    /// A decimal number without a leading zero, of at most 10 digits.
    Number(u64),
    /// A string literal: its characters, with the escapes resolved (JLS 3.10.5).
    Text(Name),
    /// A keyword, or `true`, `false` or `null`.
    Word(Keyword),
    /// A separator or an operator.
    Op(Operator),
    /// The end of the source, after its last character.
    End,
}

/// The keywords, with `true`, `false` and `null` (JLS 3.9, 3.10).
#[derive(Clone, Copy, Debug, PartialEq, Eq)]
pub enum Keyword {
    Abstract,
    Assert,
    Boolean,
    Break,
    Byte,
    Case,
    Catch,
    Char,
    Class,
    Const,
    Continue,
    Default,
    Do,
    Double,
    Else,
    Enum,
    Extends,
    Final,
    Finally,
    Float,
    For,
    Goto,
    If,
    Implements,
    Import,
    Instanceof,
    Int,
    Interface,
    Long,
    Native,
    New,
    Package,
    Private,
    Protected,
    Public,
    Return,
    Short,
    Static,
    Strictfp,
    Super,
    Switch,
    Synchronized,
    This,
    Throw,
    Throws,
    Transient,
    Try,
    Void,
    Volatile,
    While,
    True,
    False,
    Null,
}

/// The separators and operators (JLS 3.11, 3.12), and the signs of the contract language.
#[derive(Clone, Copy, Debug, PartialEq, Eq)]
pub enum Operator {
    /// `(`
    LeftParen,
    /// `)`
    RightParen,
    /// `{`
    LeftBrace,
    /// `}`
    RightBrace,
    /// `[`
    LeftBracket,
    /// `]`
    RightBracket,
    /// `;`
    Semicolon,
    /// `,`
    Comma,
    /// `.`
    Dot,
    /// `..`
    DotDot,
    /// `=`
    Assign,
    /// `>`
    Greater,
    /// `<`
    Less,
    /// `!`
    Not,
    /// `~`
    Tilde,
    /// `?`
    Question,
    /// `:`
    Colon,
    /// `#`
    Hash,
    /// `==`
    Equal,
    /// `<=`
    LessEqual,
    /// `>=`
    GreaterEqual,
    /// `!=`
    NotEqual,
    /// `&&`
    AndAnd,
    /// `||`
    OrOr,
    /// `++`
    Increment,
    /// `--`
    Decrement,
    /// `+`
    Plus,
    /// `-`
    Minus,
    /// `*`
    Star,
    /// `/`
    Slash,
    /// `&`
    And,
    /// `|`
    Or,
    /// `^`
    Xor,
    /// `%`
    Percent,
    /// `<<`
    ShiftLeft,
    /// `>>`
    ShiftRight,
    /// `>>>`
    UnsignedShiftRight,
    /// `+=`
    PlusAssign,
    /// `-=`
    MinusAssign,
    /// `*=`
    StarAssign,
    /// `/=`
    SlashAssign,
    /// `&=`
    AndAssign,
    /// `|=`
    OrAssign,
    /// `^=`
    XorAssign,
    /// `%=`
    PercentAssign,
    /// `<<=`
    ShiftLeftAssign,
    /// `>>=`
    ShiftRightAssign,
    /// `>>>=`
    UnsignedShiftRightAssign,
    /// `=>`
    Implies,
    /// `<=>`
    Iff,
}
