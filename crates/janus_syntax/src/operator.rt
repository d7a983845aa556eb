//! Operators that stand between two expressions, and the signs of assignments.

ghost use Rattle.std.specs.Prelude.{◌≡◌};
ghost use Rattle.janus_syntax.specs.Operators.{sign_infix, sign_update};

use crate::token::Sign;
use crate::tree::{Operator, Update};

/// What joins two expressions.
#[derive(Clone, Copy)]
pub enum Joint {
    Binary(Operator),
    And,
    Or,
}

/// What joins two expressions, and how strongly: 1 binds strongest, 8 weakest.
#[derive(Clone, Copy)]
pub struct Infix {
    pub joint: Joint,
    pub level: u8,
}

/// The operator of a sign, and its level.
pub fn infix_of(sign: Sign) -> Option<Infix>
    ensures { result ≡ sign_infix sign }
{
    let (joint, level) = match sign {
        Sign::Times => (Joint::Binary(Operator::Multiply), 1),
        Sign::Divide => (Joint::Binary(Operator::Divide), 1),
        Sign::Remainder => (Joint::Binary(Operator::Remainder), 1),
        Sign::Plus => (Joint::Binary(Operator::Add), 2),
        Sign::Minus => (Joint::Binary(Operator::Subtract), 2),
        Sign::Less => (Joint::Binary(Operator::Less), 3),
        Sign::Greater => (Joint::Binary(Operator::Greater), 3),
        Sign::AtMost => (Joint::Binary(Operator::AtMost), 3),
        Sign::AtLeast => (Joint::Binary(Operator::AtLeast), 3),
        Sign::Equals => (Joint::Binary(Operator::Equal), 3),
        Sign::Differs => (Joint::Binary(Operator::Differ), 3),
        Sign::BitAnd => (Joint::Binary(Operator::BitAnd), 4),
        Sign::Xor => (Joint::Binary(Operator::Xor), 5),
        Sign::BitOr => (Joint::Binary(Operator::BitOr), 6),
        Sign::And => (Joint::And, 7),
        Sign::Or => (Joint::Or, 8),
        _ => return None,
    };
    Some(Infix { joint, level })
}

/// The assignment of a sign.
pub fn update_of(sign: Sign) -> Option<Update>
    ensures { result ≡ sign_update sign }
{
    match sign {
        Sign::PlusEquals => Some(Update::Add),
        Sign::MinusEquals => Some(Update::Subtract),
        Sign::XorEquals => Some(Update::Xor),
        _ => None,
    }
}
