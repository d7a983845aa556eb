//! Trees as texts: expressions in prefix form with a blank before each, blocks in braces, a semicolon behind each statement.
use janus_syntax::tree::{Cell, Declaration, Exp, Name, Parameter, Procedure, Stm, Update};
use std::fmt::Debug;
use tests_rows::Sheet;

/// Writes an expression.
pub(crate) fn write_exp(exp: &Exp, sheet: &mut Sheet) {
    write_exp_head(exp, sheet);
    match exp {
        Exp::Number(_, _) | Exp::Variable(_) => return,
        Exp::Empty(_) | Exp::Top(_) => {}
        Exp::Element(_, operand) | Exp::Negative(operand) => write_exp(operand, sheet),
        Exp::Binary(_, left, right) | Exp::And(left, right) | Exp::Or(left, right) => {
            write_exp(left, sheet);
            write_exp(right, sheet);
        }
    }
    sheet.write(")");
}

/// Writes a number, a name, or the parenthesis of another expression with what it does.
fn write_exp_head(exp: &Exp, sheet: &mut Sheet) {
    match exp {
        Exp::Number(number, _) => write_shown(" ", number, sheet),
        Exp::Variable(name) => write_name(" ", name, sheet),
        Exp::Element(name, _) => write_name(" (at ", name, sheet),
        Exp::Empty(name) => write_name(" (empty ", name, sheet),
        Exp::Top(name) => write_name(" (top ", name, sheet),
        Exp::Negative(_) => sheet.write(" (Negative"),
        Exp::Binary(operator, _, _) => write_shown(" (", operator, sheet),
        Exp::And(_, _) => sheet.write(" (And"),
        Exp::Or(_, _) => sheet.write(" (Or"),
    }
}

/// Writes a word and a value as `Debug` does.
fn write_shown<T: Debug>(word: &str, value: &T, sheet: &mut Sheet) {
    sheet.write(word);
    sheet.show(value);
}

/// Writes a word and a name.
fn write_name(word: &str, name: &Name, sheet: &mut Sheet) {
    sheet.write(word);
    sheet.write(&name.text);
}

/// Writes a word, a name, and names behind it.
fn write_names(word: &str, name: &Name, names: &[Name], sheet: &mut Sheet) {
    write_name(word, name, sheet);
    for name in names {
        write_name(" ", name, sheet);
    }
}

/// Writes a word and two names.
fn write_two_names(word: &str, name: &Name, other: &Name, sheet: &mut Sheet) {
    write_name(word, name, sheet);
    write_name(" ", other, sheet);
}

/// Writes a name, what stands behind it, and how it is changed.
fn write_update(name: &Name, mark: &str, update: &Update, sheet: &mut Sheet) {
    write_name("", name, sheet);
    write_shown(mark, update, sheet);
}

/// Writes a statement.
#[cycle(outline)]
fn write_statement(statement: &Stm, sheet: &mut Sheet) {
    write_statement_head(statement, sheet);
    match statement {
        Stm::Skip
        | Stm::Push(_, _)
        | Stm::Pop(_, _)
        | Stm::Swap(_, _)
        | Stm::Call(_, _)
        | Stm::Uncall(_, _) => {}
        Stm::Assign(_, _, exp) => write_exp(exp, sheet),
        Stm::AssignElement(_, index, _, exp) => {
            write_exp(index, sheet);
            write_exp(exp, sheet);
        }
        Stm::If(first, one, other, last) | Stm::Loop(first, one, other, last) => {
            write_exp(first, sheet);
            write_block(one, sheet);
            write_block(other, sheet);
            write_exp(last, sheet);
        }
        Stm::LocalInt(_, first, body, again, last) => {
            write_exp(first, sheet);
            write_block(body, sheet);
            write_name(" ", again, sheet);
            write_exp(last, sheet);
        }
        Stm::LocalStack(_, body, again) => {
            write_block(body, sheet);
            write_name(" ", again, sheet);
        }
    }
    sheet.write(";");
}

/// Writes a block.
#[cycle(outline)]
fn write_block(block: &[Stm], sheet: &mut Sheet) {
    sheet.write(" {");
    for i in 0..block.len() {
        write_statement(&block[i], sheet);
    }
    sheet.write("}");
}

/// Writes what a statement does, and the names to which it is done.
fn write_statement_head(statement: &Stm, sheet: &mut Sheet) {
    match statement {
        Stm::Skip => sheet.write("skip"),
        Stm::Assign(name, update, _) => write_update(name, " ", update, sheet),
        Stm::AssignElement(name, _, update, _) => write_update(name, "[] ", update, sheet),
        Stm::Push(variable, stack) => write_two_names("push ", variable, stack, sheet),
        Stm::Pop(variable, stack) => write_two_names("pop ", variable, stack, sheet),
        Stm::Swap(name, partner) => write_two_names("swap ", name, partner, sheet),
        Stm::If(_, _, _, _) => sheet.write("if"),
        Stm::Loop(_, _, _, _) => sheet.write("from"),
        Stm::LocalInt(name, _, _, _, _) => write_name("local int ", name, sheet),
        Stm::LocalStack(name, _, _) => write_name("local stack ", name, sheet),
        Stm::Call(name, arguments) => write_names("call ", name, arguments, sheet),
        Stm::Uncall(name, arguments) => write_names("uncall ", name, arguments, sheet),
    }
}

/// Writes a cell: its declarations, its statements and its procedures.
pub(crate) fn write_cell(cell: &Cell, sheet: &mut Sheet) {
    write_declarations(&cell.declarations, sheet);
    write_block(&cell.statements, sheet);
    for procedure in &cell.procedures {
        write_procedure(procedure, sheet);
    }
}

/// Writes declarations.
fn write_declarations(declarations: &[Declaration], sheet: &mut Sheet) {
    for declaration in declarations {
        write_declaration(declaration, sheet);
        sheet.write(";");
    }
}

/// Writes a declaration.
fn write_declaration(declaration: &Declaration, sheet: &mut Sheet) {
    match declaration {
        Declaration::Int(name) => write_name("int ", name, sheet),
        Declaration::Array(name, length, _) => {
            write_name("int ", name, sheet);
            write_shown(" ", length, sheet);
        }
        Declaration::Stack(name) => write_name("stack ", name, sheet),
    }
}

/// Writes a procedure: its name, its parameters and its body.
fn write_procedure(procedure: &Procedure, sheet: &mut Sheet) {
    write_name(" procedure ", &procedure.name, sheet);
    for parameter in &procedure.parameters {
        write_parameter(parameter, sheet);
    }
    write_block(&procedure.body, sheet);
}

/// Writes a parameter.
fn write_parameter(parameter: &Parameter, sheet: &mut Sheet) {
    match parameter {
        Parameter::Int(name) => write_name(" int ", name, sheet),
        Parameter::Array(name) => write_name(" array ", name, sheet),
        Parameter::Stack(name) => write_name(" stack ", name, sheet),
    }
}
