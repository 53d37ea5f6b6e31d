ghost use Rattle.std.specs.Prelude.{◌≡◌, ◌≢◌, IfSome, IfNone};

use crate::Keyword;
use crate::text::is_text;

/// Every keyword once.
const KEYWORDS: [Keyword; 53] = [
    Keyword::Abstract,
    Keyword::Assert,
    Keyword::Boolean,
    Keyword::Break,
    Keyword::Byte,
    Keyword::Case,
    Keyword::Catch,
    Keyword::Char,
    Keyword::Class,
    Keyword::Const,
    Keyword::Continue,
    Keyword::Default,
    Keyword::Do,
    Keyword::Double,
    Keyword::Else,
    Keyword::Enum,
    Keyword::Extends,
    Keyword::Final,
    Keyword::Finally,
    Keyword::Float,
    Keyword::For,
    Keyword::Goto,
    Keyword::If,
    Keyword::Implements,
    Keyword::Import,
    Keyword::Instanceof,
    Keyword::Int,
    Keyword::Interface,
    Keyword::Long,
    Keyword::Native,
    Keyword::New,
    Keyword::Package,
    Keyword::Private,
    Keyword::Protected,
    Keyword::Public,
    Keyword::Return,
    Keyword::Short,
    Keyword::Static,
    Keyword::Strictfp,
    Keyword::Super,
    Keyword::Switch,
    Keyword::Synchronized,
    Keyword::This,
    Keyword::Throw,
    Keyword::Throws,
    Keyword::Transient,
    Keyword::Try,
    Keyword::Void,
    Keyword::Volatile,
    Keyword::While,
    Keyword::True,
    Keyword::False,
    Keyword::Null,
];

impl Keyword {
    ghost use Rattle.java_tokens.specs.declared.token.Keyword.{Keyword};
    ghost use Rattle.java_tokens.specs.Spelling.{keyword_text};

    /// The keyword's text (JLS 3.9, 3.10).
    pub fn text(self) -> &'static str
        ensures { result.now ≡ keyword_text self }
    {
        match self {
            Keyword::Abstract => "abstract",
            Keyword::Assert => "assert",
            Keyword::Boolean => "boolean",
            Keyword::Break => "break",
            Keyword::Byte => "byte",
            Keyword::Case => "case",
            Keyword::Catch => "catch",
            Keyword::Char => "char",
            Keyword::Class => "class",
            Keyword::Const => "const",
            Keyword::Continue => "continue",
            Keyword::Default => "default",
            Keyword::Do => "do",
            Keyword::Double => "double",
            Keyword::Else => "else",
            Keyword::Enum => "enum",
            Keyword::Extends => "extends",
            Keyword::Final => "final",
            Keyword::Finally => "finally",
            Keyword::Float => "float",
            Keyword::For => "for",
            Keyword::Goto => "goto",
            Keyword::If => "if",
            Keyword::Implements => "implements",
            Keyword::Import => "import",
            Keyword::Instanceof => "instanceof",
            Keyword::Int => "int",
            Keyword::Interface => "interface",
            Keyword::Long => "long",
            Keyword::Native => "native",
            Keyword::New => "new",
            Keyword::Package => "package",
            Keyword::Private => "private",
            Keyword::Protected => "protected",
            Keyword::Public => "public",
            Keyword::Return => "return",
            Keyword::Short => "short",
            Keyword::Static => "static",
            Keyword::Strictfp => "strictfp",
            Keyword::Super => "super",
            Keyword::Switch => "switch",
            Keyword::Synchronized => "synchronized",
            Keyword::This => "this",
            Keyword::Throw => "throw",
            Keyword::Throws => "throws",
            Keyword::Transient => "transient",
            Keyword::Try => "try",
            Keyword::Void => "void",
            Keyword::Volatile => "volatile",
            Keyword::While => "while",
            Keyword::True => "true",
            Keyword::False => "false",
            Keyword::Null => "null",
        }
    }

    /// The keyword that this text is, if it is one.
    pub(crate) fn from_text(text: &[char]) -> Option<Keyword>
        ensures some { IfSome result (λ keyword. text.now ≡ keyword_text keyword) }
        ensures none { IfNone result ((k : Keyword) → text.now ≢ keyword_text k) }
    {
        for keyword in KEYWORDS {
            if is_text(text, keyword.text()) {
                return Some(keyword);
            }
        }
        None
    }
}
