//! Tokens and the places where they stand.

ghost use Rattle.std.specs.Prelude.{◌≡◌};
ghost use Rattle.janus_syntax.specs.Spelling.{sign_text, keyword_text};

/// The octets of a text from `start` up to, and without, `end`.
#[derive(Clone, Copy, PartialEq, Eq, Debug)]
pub struct Span {
    pub start: usize,
    pub end: usize,
}

/// The signs of the language.
#[derive(Clone, Copy, PartialEq, Eq, Debug)]
pub enum Sign {
    PlusEquals,
    MinusEquals,
    XorEquals,
    Swap,
    Plus,
    Minus,
    Times,
    Divide,
    Remainder,
    Xor,
    BitAnd,
    And,
    BitOr,
    Or,
    Equals,
    Differs,
    Less,
    Greater,
    AtMost,
    AtLeast,
    Open,
    Close,
    OpenIndex,
    CloseIndex,
    Comma,
}

impl Sign {
    /// The sign as it is written.
    pub fn text(self) -> &'static str
        ensures { result.now ≡ sign_text self }
    {
        match self {
            Sign::PlusEquals => "+=",
            Sign::MinusEquals => "-=",
            Sign::XorEquals => "^=",
            Sign::Swap => "<=>",
            Sign::Plus => "+",
            Sign::Minus => "-",
            Sign::Times => "*",
            Sign::Divide => "/",
            Sign::Remainder => "%",
            Sign::Xor => "^",
            Sign::BitAnd => "&",
            Sign::And => "&&",
            Sign::BitOr => "|",
            Sign::Or => "||",
            Sign::Equals => "=",
            Sign::Differs => "!=",
            Sign::Less => "<",
            Sign::Greater => ">",
            Sign::AtMost => "<=",
            Sign::AtLeast => ">=",
            Sign::Open => "(",
            Sign::Close => ")",
            Sign::OpenIndex => "[",
            Sign::CloseIndex => "]",
            Sign::Comma => ",",
        }
    }
}

/// The keywords of the language: words that are no names.
#[derive(Clone, Copy, PartialEq, Eq, Debug)]
pub enum Keyword {
    Call,
    Delocal,
    Do,
    Else,
    Empty,
    Fi,
    From,
    If,
    Int,
    Local,
    Loop,
    Main,
    Nil,
    Pop,
    Procedure,
    Push,
    Skip,
    Stack,
    Then,
    Top,
    Uncall,
    Until,
}

impl Keyword {
    /// The keyword as it is written.
    pub fn text(self) -> &'static str
        ensures { result.now ≡ keyword_text self }
    {
        match self {
            Keyword::Call => "call",
            Keyword::Delocal => "delocal",
            Keyword::Do => "do",
            Keyword::Else => "else",
            Keyword::Empty => "empty",
            Keyword::Fi => "fi",
            Keyword::From => "from",
            Keyword::If => "if",
            Keyword::Int => "int",
            Keyword::Local => "local",
            Keyword::Loop => "loop",
            Keyword::Main => "main",
            Keyword::Nil => "nil",
            Keyword::Pop => "pop",
            Keyword::Procedure => "procedure",
            Keyword::Push => "push",
            Keyword::Skip => "skip",
            Keyword::Stack => "stack",
            Keyword::Then => "then",
            Keyword::Top => "top",
            Keyword::Uncall => "uncall",
            Keyword::Until => "until",
        }
    }
}

/// All keywords, in the order of their letters.
pub const KEYWORDS: [Keyword; 22] = [
    Keyword::Call,
    Keyword::Delocal,
    Keyword::Do,
    Keyword::Else,
    Keyword::Empty,
    Keyword::Fi,
    Keyword::From,
    Keyword::If,
    Keyword::Int,
    Keyword::Local,
    Keyword::Loop,
    Keyword::Main,
    Keyword::Nil,
    Keyword::Pop,
    Keyword::Procedure,
    Keyword::Push,
    Keyword::Skip,
    Keyword::Stack,
    Keyword::Then,
    Keyword::Top,
    Keyword::Uncall,
    Keyword::Until,
];

/// What a token is. A number is at most 2147483647.
#[derive(Drop)]
pub enum TokenKind {
    Name(String),
    Number(u32),
    Sign(Sign),
    Keyword(Keyword),
}

/// A token, and the octets of the text where it stands.
#[derive(Drop)]
pub struct Token {
    pub kind: TokenKind,
    pub span: Span,
}
