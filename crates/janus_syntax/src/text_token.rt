//! Tokens as the parser reads them: a name is still a part of the text.

ghost use Rattle.std.specs.Prelude.{◌≡◌, IfOk};
ghost use Rattle.janus_syntax.specs.Tokens as kept;
ghost use Rattle.janus_syntax.specs.TextTokens.{token_view};

use crate::token::{Keyword, Sign, Span, Token, TokenKind};
use std::alloc::{AllocError, Global};

/// What a token is. A number is at most 2147483647.
#[derive(Clone, Copy)]
pub(crate) enum TextKind<'a> {
    Name(&'a str),
    Number(u32),
    Sign(Sign),
    Keyword(Keyword),
}

/// A token whose name, if it is one, is a part of the text, and the octets where it stands.
#[derive(Clone, Copy)]
pub(crate) struct TextToken<'a> {
    pub(crate) kind: TextKind<'a>,
    pub(crate) span: Span,
}

/// Tokens that follow one another.
pub(crate) type Tokens<'a> = &'a [TextToken<'a>];

impl TextToken<'_> {
    /// The same token, with a name in memory of its own; an error for want of memory.
    pub(crate) fn kept(&self, alloc: Global) -> Result<Token, AllocError>
        ensures { IfOk result (λ token. kept.token_view token ≡ token_view self.now) }
    {
        let kind = match &self.kind {
            TextKind::Name(text) => TokenKind::Name(String::from_str(alloc, text)?),
            TextKind::Number(number) => TokenKind::Number(*number),
            TextKind::Sign(sign) => TokenKind::Sign(*sign),
            TextKind::Keyword(keyword) => TokenKind::Keyword(*keyword),
        };
        Ok(Token {
            kind,
            span: self.span,
        })
    }
}
