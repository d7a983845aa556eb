//! From a tree to its text.

ghost use Rattle.std.specs.Prelude.{◌≡◌, IfOk, IfErr, string_bytes, [], ◌∷◌, ◌++◌, false};
ghost use Rattle.janus_syntax.specs.Tree.{names_view, exp_view, stm_view, block_view, declaration_view, declarations_view, parameter_view, parameters_view};
ghost use Rattle.janus_syntax.specs.Tree.{procedure_view, procedures_view, cell_view};
ghost use Rattle.janus_syntax.specs.Printed.{line_view, Becomes, Adds};
ghost use Rattle.janus_syntax.specs.Printing.{A_name, A_number, A_sign, A_keyword, An_opening, read_pieces, transfer_pieces, binding_pieces};
ghost use Rattle.janus_syntax.specs.Printing.{more_names_pieces, names_pieces, call_pieces, with_text, if_needed, operator_sign};
ghost use Rattle.janus_syntax.specs.Printing.{sign_level, infix_pieces, exp_pieces, update_sign, whole_pieces, stm_pieces, block_pieces, declaration_pieces};
ghost use Rattle.janus_syntax.specs.Printing.{declarations_pieces, parameter_pieces, more_parameters_pieces, parameters_pieces, procedure_pieces};
ghost use Rattle.janus_syntax.specs.Printing.{procedures_pieces, printed, printed_procedure, printed_exp, no_text};
ghost use Rattle.janus_syntax.specs.declared.fault.SyntaxFault.TheVariants.{Memory};

use crate::fault::SyntaxFault;
use crate::operator::infix_of;
use crate::token::{Keyword, Sign};
use crate::tree::{Cell, Declaration, Exp, Name, Operator, Parameter, Procedure, Stm, Update};
use std::alloc::Global;

/// A line as far as it is printed. It keeps that memory was refused, and then its text does not count: who prints a tree goes on to its end, and
/// asks once.
#[derive(Drop)]
struct Line {
    text: String,
    /// No space may follow.
    tight: bool,
    refused: bool,
}

/// A text more.
fn push(line: &mut Line, text: &str)
    ensures { Becomes line.old line.new (record { text = string_bytes line.old.text ++ text.now; tight = line.old.tight }) }
{
    if line.text.push_str(text).is_err() {
        line.refused = true;
    }
}

/// One token more; a space stands before it, unless it leans on the one before or that one holds it.
fn put(line: &mut Line, leans: bool, text: &str, holds: bool)
    ensures { Becomes line.old line.new (with_text (line_view line.old) leans text.now holds) }
{
    if !line.tight && !leans {
        push(line, " ");
    }
    push(line, text);
    line.tight = holds;
}

/// One sign more.
fn put_sign(line: &mut Line, sign: Sign)
    ensures { Adds line.old line.new (A_sign sign ∷ []) }
{
    match sign {
        Sign::Close | Sign::CloseIndex | Sign::Comma => put(line, true, sign.text(), false),
        Sign::OpenIndex => put(line, true, sign.text(), true),
        Sign::Open => put(line, false, sign.text(), true),
        _ => put(line, false, sign.text(), false),
    }
}

/// One sign more, if it is needed.
fn put_if(line: &mut Line, needed: bool, sign: Sign)
    ensures { Adds line.old line.new (if_needed needed sign) }
{
    if needed {
        put_sign(line, sign);
    }
}

/// One keyword more.
fn put_keyword(line: &mut Line, keyword: Keyword)
    ensures { Adds line.old line.new (A_keyword keyword ∷ []) }
{
    put(line, false, keyword.text(), false)
}

/// One name more.
fn put_name(line: &mut Line, name: &Name)
    ensures { Adds line.old line.new (A_name (string_bytes name.now.text) ∷ []) }
{
    put(line, false, &name.text, false)
}

/// One number more.
fn put_number(alloc: Global, line: &mut Line, number: u32)
    ensures { Adds line.old line.new (A_number number ∷ []) }
{
    match number.to_string(alloc) {
        Ok(digits) => put(line, false, &digits, false),
        Err(_) => line.refused = true,
    }
}

/// The `(` behind a keyword or a name, before names.
fn put_opening(line: &mut Line)
    ensures { Adds line.old line.new (An_opening ∷ []) }
{
    put(line, true, Sign::Open.text(), true)
}

/// A keyword, and behind it `(`.
fn put_head(line: &mut Line, keyword: Keyword)
    ensures { Adds line.old line.new (A_keyword keyword ∷ An_opening ∷ []) }
{
    put_keyword(line, keyword);
    put_opening(line);
}

/// A keyword, and behind it a name.
fn put_named(line: &mut Line, keyword: Keyword, name: &Name)
    ensures { Adds line.old line.new (A_keyword keyword ∷ A_name (string_bytes name.now.text) ∷ []) }
{
    put_keyword(line, keyword);
    put_name(line, name);
}

/// What is read of a stack: a keyword, and behind it the stack's name in parentheses.
fn put_read(line: &mut Line, keyword: Keyword, stack: &Name)
    ensures { Adds line.old line.new (read_pieces keyword (string_bytes stack.now.text)) }
{
    put_head(line, keyword);
    put_name(line, stack);
    put_sign(line, Sign::Close);
}

/// What goes between a variable and a stack: a keyword, and behind it both names in parentheses.
fn put_transfer(line: &mut Line, keyword: Keyword, variable: &Name, stack: &Name)
    ensures { Adds line.old line.new (transfer_pieces keyword (string_bytes variable.now.text) (string_bytes stack.now.text)) }
{
    put_head(line, keyword);
    put_name(line, variable);
    put_sign(line, Sign::Comma);
    put_name(line, stack);
    put_sign(line, Sign::Close);
}

/// `local` or `delocal`, a kind, a name and `=`.
fn put_binding(line: &mut Line, keyword: Keyword, kind: Keyword, name: &Name)
    ensures { Adds line.old line.new (binding_pieces keyword kind (string_bytes name.now.text)) }
{
    put_keyword(line, keyword);
    put_named(line, kind, name);
    put_sign(line, Sign::Equals);
}

/// A comma and a name, for each of the names.
fn put_more_names(line: &mut Line, names: &[Name])
    ensures { Adds line.old line.new (more_names_pieces (names_view names.now)) }
{
    for i in 0..names.len() {
        put_sign(line, Sign::Comma);
        put_name(line, &names[i]);
    }
}

/// Names, parted by commas.
fn put_names(line: &mut Line, names: &[Name])
    ensures { Adds line.old line.new (names_pieces (names_view names.now)) }
{
    let Some((first, rest)) = names.split_first() else {
        return;
    };
    put_name(line, first);
    put_more_names(line, rest);
}

/// `call` or `uncall`, a name, and names in parentheses.
fn put_call(line: &mut Line, keyword: Keyword, procedure: &Name, arguments: &[Name])
    ensures { Adds line.old line.new (call_pieces keyword (string_bytes procedure.now.text) (names_view arguments.now)) }
{
    put_named(line, keyword, procedure);
    put_opening(line);
    put_names(line, arguments);
    put_sign(line, Sign::Close);
}

/// The sign of an operator.
fn sign_of(operator: Operator) -> Sign
    ensures { result ≡ operator_sign operator }
{
    match operator {
        Operator::Add => Sign::Plus,
        Operator::Subtract => Sign::Minus,
        Operator::Multiply => Sign::Times,
        Operator::Divide => Sign::Divide,
        Operator::Remainder => Sign::Remainder,
        Operator::BitAnd => Sign::BitAnd,
        Operator::BitOr => Sign::BitOr,
        Operator::Xor => Sign::Xor,
        Operator::Less => Sign::Less,
        Operator::Greater => Sign::Greater,
        Operator::AtMost => Sign::AtMost,
        Operator::AtLeast => Sign::AtLeast,
        Operator::Equal => Sign::Equals,
        Operator::Differ => Sign::Differs,
    }
}

/// The level of a sign's operator.
fn level_of(sign: Sign) -> u8
    ensures { result ≡ sign_level sign }
{
    match infix_of(sign) {
        Some(infix) => infix.level,
        None => 0,
    }
}

/// An expression, in a place for operators of at most this level.
#[cycle(put_exp)]
fn put_exp(alloc: Global, line: &mut Line, exp: &Exp, level: u8)
    ensures { Adds line.old line.new (exp_pieces (exp_view exp.now) level) }
{
    match exp {
        Exp::Number(number, _) => put_number(alloc, line, *number),
        Exp::Variable(name) => put_name(line, name),
        Exp::Element(name, index) => {
            put_name(line, name);
            put_sign(line, Sign::OpenIndex);
            put_exp(alloc, line, index, 8);
            put_sign(line, Sign::CloseIndex);
        }
        Exp::Empty(name) => put_read(line, Keyword::Empty, name),
        Exp::Top(name) => put_read(line, Keyword::Top, name),
        Exp::Negative(operand) => {
            put(line, false, "-", true);
            put_exp(alloc, line, operand, 0);
        }
        Exp::Binary(operator, left, right) => {
            put_infix(alloc, line, level, sign_of(*operator), left, right)
        }
        Exp::And(left, right) => put_infix(alloc, line, level, Sign::And, left, right),
        Exp::Or(left, right) => put_infix(alloc, line, level, Sign::Or, left, right),
    }
}

/// An operator between its sides, in a place for operators of at most this level.
#[cycle(put_exp)]
fn put_infix(alloc: Global, line: &mut Line, level: u8, sign: Sign, left: &Exp, right: &Exp)
    ensures { Adds line.old line.new (infix_pieces level sign (exp_pieces (exp_view left.now)) (exp_pieces (exp_view right.now))) }
{
    let own = level_of(sign);
    put_if(line, level < own, Sign::Open);
    put_exp(alloc, line, left, own);
    put_sign(line, sign);
    put_exp(alloc, line, right, own.saturating_sub(1));
    put_if(line, level < own, Sign::Close);
}

/// The sign of an assignment.
fn sign_of_update(update: Update) -> Sign
    ensures { result ≡ update_sign update }
{
    match update {
        Update::Add => Sign::PlusEquals,
        Update::Subtract => Sign::MinusEquals,
        Update::Xor => Sign::XorEquals,
    }
}

/// A whole expression.
fn put_whole(alloc: Global, line: &mut Line, exp: &Exp)
    ensures { Adds line.old line.new (whole_pieces (exp_view exp.now)) }
{
    put_exp(alloc, line, exp, 8)
}

/// A keyword, and behind it a whole expression.
fn put_test(alloc: Global, line: &mut Line, keyword: Keyword, test: &Exp)
    ensures { Adds line.old line.new (A_keyword keyword ∷ whole_pieces (exp_view test.now)) }
{
    put_keyword(line, keyword);
    put_whole(alloc, line, test);
}

/// A statement.
#[cycle(put_stm)]
fn put_stm(alloc: Global, line: &mut Line, statement: &Stm)
    ensures { Adds line.old line.new (stm_pieces (stm_view statement.now)) }
{
    match statement {
        Stm::Skip => put_keyword(line, Keyword::Skip),
        Stm::Assign(name, update, exp) => {
            put_name(line, name);
            put_sign(line, sign_of_update(*update));
            put_whole(alloc, line, exp);
        }
        Stm::AssignElement(name, index, update, exp) => {
            put_name(line, name);
            put_sign(line, Sign::OpenIndex);
            put_whole(alloc, line, index);
            put_sign(line, Sign::CloseIndex);
            put_sign(line, sign_of_update(*update));
            put_whole(alloc, line, exp);
        }
        Stm::Push(variable, stack) => put_transfer(line, Keyword::Push, variable, stack),
        Stm::Pop(variable, stack) => put_transfer(line, Keyword::Pop, variable, stack),
        Stm::Swap(first, second) => {
            put_name(line, first);
            put_sign(line, Sign::Swap);
            put_name(line, second);
        }
        Stm::If(test, then_part, else_part, assertion) => {
            put_test(alloc, line, Keyword::If, test);
            put_part(alloc, line, Keyword::Then, then_part);
            put_part(alloc, line, Keyword::Else, else_part);
            put_test(alloc, line, Keyword::Fi, assertion);
        }
        Stm::Loop(assertion, do_part, loop_part, test) => {
            put_test(alloc, line, Keyword::From, assertion);
            put_part(alloc, line, Keyword::Do, do_part);
            put_part(alloc, line, Keyword::Loop, loop_part);
            put_test(alloc, line, Keyword::Until, test);
        }
        Stm::LocalInt(name, exp, body, again, test) => {
            put_binding(line, Keyword::Local, Keyword::Int, name);
            put_whole(alloc, line, exp);
            put_block(alloc, line, body);
            put_binding(line, Keyword::Delocal, Keyword::Int, again);
            put_whole(alloc, line, test);
        }
        Stm::LocalStack(name, body, again) => {
            put_binding(line, Keyword::Local, Keyword::Stack, name);
            put_keyword(line, Keyword::Nil);
            put_block(alloc, line, body);
            put_binding(line, Keyword::Delocal, Keyword::Stack, again);
            put_keyword(line, Keyword::Nil);
        }
        Stm::Call(procedure, arguments) => put_call(line, Keyword::Call, procedure, arguments),
        Stm::Uncall(procedure, arguments) => put_call(line, Keyword::Uncall, procedure, arguments),
    }
}

/// A keyword, and behind it a block.
#[cycle(put_stm)]
fn put_part(alloc: Global, line: &mut Line, keyword: Keyword, part: &[Stm])
    ensures { Adds line.old line.new (A_keyword keyword ∷ block_pieces (block_view part.now)) }
{
    put_keyword(line, keyword);
    put_block(alloc, line, part);
}

/// The statements of a block.
#[cycle(put_stm)]
fn put_block(alloc: Global, line: &mut Line, block: &[Stm])
    ensures { Adds line.old line.new (block_pieces (block_view block.now)) }
{
    for i in 0..block.len() {
        put_stm(alloc, line, &block[i]);
    }
}

/// A declaration.
fn put_declaration(alloc: Global, line: &mut Line, declaration: &Declaration)
    ensures { Adds line.old line.new (declaration_pieces (declaration_view declaration.now)) }
{
    match declaration {
        Declaration::Int(name) => put_named(line, Keyword::Int, name),
        Declaration::Array(name, length, _) => {
            put_named(line, Keyword::Int, name);
            put_sign(line, Sign::OpenIndex);
            put_number(alloc, line, *length);
            put_sign(line, Sign::CloseIndex);
        }
        Declaration::Stack(name) => put_named(line, Keyword::Stack, name),
    }
}

/// All declarations.
fn put_declarations(alloc: Global, line: &mut Line, declarations: &[Declaration])
    ensures { Adds line.old line.new (declarations_pieces (declarations_view declarations.now)) }
{
    for i in 0..declarations.len() {
        put_declaration(alloc, line, &declarations[i]);
    }
}

/// A parameter.
fn put_parameter(line: &mut Line, parameter: &Parameter)
    ensures { Adds line.old line.new (parameter_pieces (parameter_view parameter.now)) }
{
    match parameter {
        Parameter::Int(name) => put_named(line, Keyword::Int, name),
        Parameter::Array(name) => {
            put_named(line, Keyword::Int, name);
            put_sign(line, Sign::OpenIndex);
            put_sign(line, Sign::CloseIndex);
        }
        Parameter::Stack(name) => put_named(line, Keyword::Stack, name),
    }
}

/// A comma and a parameter, for each of the parameters.
fn put_more_parameters(line: &mut Line, parameters: &[Parameter])
    ensures { Adds line.old line.new (more_parameters_pieces (parameters_view parameters.now)) }
{
    for i in 0..parameters.len() {
        put_sign(line, Sign::Comma);
        put_parameter(line, &parameters[i]);
    }
}

/// Parameters, parted by commas.
fn put_parameters(line: &mut Line, parameters: &[Parameter])
    ensures { Adds line.old line.new (parameters_pieces (parameters_view parameters.now)) }
{
    let Some((first, rest)) = parameters.split_first() else {
        return;
    };
    put_parameter(line, first);
    put_more_parameters(line, rest);
}

/// A procedure.
fn put_procedure(alloc: Global, line: &mut Line, procedure: &Procedure)
    ensures { Adds line.old line.new (procedure_pieces (procedure_view procedure.now)) }
{
    put_named(line, Keyword::Procedure, &procedure.name);
    put_opening(line);
    put_parameters(line, &procedure.parameters);
    put_sign(line, Sign::Close);
    put_block(alloc, line, &procedure.body);
}

/// All procedures.
fn put_procedures(alloc: Global, line: &mut Line, procedures: &[Procedure])
    ensures { Adds line.old line.new (procedures_pieces (procedures_view procedures.now)) }
{
    for i in 0..procedures.len() {
        put_procedure(alloc, line, &procedures[i]);
    }
}

/// A line of its own, with nothing in it.
fn no_line(alloc: Global) -> Line
    ensures { line_view result ≡ no_text }
{
    Line {
        text: String::new(alloc),
        tight: true,
        refused: false,
    }
}

/// The text of a line that is printed; `Memory` if memory was refused.
fn text_of(line: Line) -> Result<String, SyntaxFault>
    ensures text { IfOk result (λ text. (line.refused ≡ false) × (string_bytes text ≡ string_bytes line.text)) }
    ensures memory { IfErr result (λ fault. fault ≡ Memory) }
{
    if line.refused {
        return Err(SyntaxFault::Memory);
    }
    Ok(line.text)
}

/// The procedure as it is printed, as in the print of a cell; the only fault is `Memory`.
pub fn print_procedure(alloc: Global, procedure: &Procedure) -> Result<String, SyntaxFault>
    ensures text { IfOk result (λ text. string_bytes text ≡ printed_procedure (procedure_view procedure.now)) }
    ensures memory { IfErr result (λ fault. fault ≡ Memory) }
{
    let mut line = no_line(alloc);
    put_procedure(alloc, &mut line, procedure);
    text_of(line)
}

/// The cell as it is printed: one line, all parts told, with parentheses only where precedence needs them; the only fault is `Memory`.
pub fn print_cell(alloc: Global, cell: &Cell) -> Result<String, SyntaxFault>
    ensures text { IfOk result (λ text. string_bytes text ≡ printed (cell_view cell.now)) }
    ensures memory { IfErr result (λ fault. fault ≡ Memory) }
{
    let mut line = no_line(alloc);
    put_declarations(alloc, &mut line, &cell.declarations);
    put_block(alloc, &mut line, &cell.statements);
    put_procedures(alloc, &mut line, &cell.procedures);
    text_of(line)
}

/// The expression as it is printed: one line, with parentheses only where precedence needs them; the only fault is `Memory`.
pub fn print_exp(alloc: Global, exp: &Exp) -> Result<String, SyntaxFault>
    ensures text { IfOk result (λ text. string_bytes text ≡ printed_exp (exp_view exp.now)) }
    ensures memory { IfErr result (λ fault. fault ≡ Memory) }
{
    let mut line = no_line(alloc);
    put_whole(alloc, &mut line, exp);
    text_of(line)
}
