//! Rows of texts. `tokens` gives the tokens of a text. `read` gives the number of statements of a cell, or its refusal: the
//! number, and the fault with its place. `tree` gives the tree of a cell, `print` what is printed of it, `again` the tree of what
//! is printed, `procedures` what is printed of each procedure alone, and `inverse` what is printed of the inverse. `exp` gives the tree of
//! an expression, which is copied, and what is printed of the copy.
use crate::outlines::{write_cell, write_exp};
use janus_code::invert;
use janus_syntax::{
    Cell, Exp, SyntaxFault, Token, TokenKind, parse_cell, parse_exp, print_cell, print_exp,
    print_procedure, tokens,
};
use tests_rows::{Sheet, cut, written};

/// Writes the answer to a call, or the refusal of its text.
pub(crate) fn answer(call: &str, sheet: &mut Sheet) {
    let (word, rest) = cut(call);
    match written(sheet.alloc(), rest) {
        Ok(text) => tell_text(word, &text, sheet),
        Err(_) => sheet.refuse(),
    }
}

/// What is asked of a text.
fn tell_text(word: &str, text: &str, sheet: &mut Sheet) {
    match word {
        "tokens" => tell_tokens(text, sheet),
        "exp" => tell_exp(text, sheet),
        _ => tell_cell(word, text, sheet),
    }
}

/// The number of a refusal, and the fault.
fn tell_fault(fault: SyntaxFault, sheet: &mut Sheet) {
    sheet.show(&fault.number());
    sheet.write(" ");
    sheet.show(&fault);
}

/// Writes what was printed, or that there was no memory for it.
fn tell_printed(printed: Result<String, SyntaxFault>, sheet: &mut Sheet) {
    match printed {
        Ok(text) => sheet.write(&text),
        Err(fault) => tell_fault(fault, sheet),
    }
}

/// What is asked of the cell of a text.
fn tell_cell(word: &str, text: &str, sheet: &mut Sheet) {
    match parse_cell(sheet.alloc(), text) {
        Ok(cell) => tell_of_cell(word, &cell, sheet),
        Err(fault) => tell_fault(fault, sheet),
    }
}

/// What is asked of a cell.
fn tell_of_cell(word: &str, cell: &Cell, sheet: &mut Sheet) {
    match word {
        "tree" => write_cell(cell, sheet),
        "print" => tell_printed(print_cell(sheet.alloc(), cell), sheet),
        "again" => tell_again(cell, sheet),
        "procedures" => tell_procedures(cell, sheet),
        "inverse" => tell_inverse(cell, sheet),
        _ => {
            sheet.show(&cell.statements.len());
            sheet.write(" statements");
        }
    }
}

/// The tokens of a text, a blank behind each.
fn tell_tokens(text: &str, sheet: &mut Sheet) {
    match tokens(sheet.alloc(), text) {
        Ok(tokens) => write_tokens(&tokens, sheet),
        Err(fault) => tell_fault(fault, sheet),
    }
}

/// Writes tokens, a blank behind each.
fn write_tokens(tokens: &[Token], sheet: &mut Sheet) {
    for token in tokens {
        write_token(token, sheet);
        sheet.write(" ");
    }
}

/// Writes a token; before a word stands a quote.
fn write_token(token: &Token, sheet: &mut Sheet) {
    match &token.kind {
        TokenKind::Name(name) => sheet.write(name),
        TokenKind::Number(number) => sheet.show(number),
        TokenKind::Sign(sign) => sheet.write(sign.text()),
        TokenKind::Keyword(word) => {
            sheet.write("'");
            sheet.write(word.text());
        }
    }
}

/// The tree of the expression of a text, which is copied, and what is printed of the copy.
fn tell_exp(text: &str, sheet: &mut Sheet) {
    match parse_exp(sheet.alloc(), text) {
        Ok(exp) => tell_copy(&exp, sheet),
        Err(fault) => tell_fault(fault, sheet),
    }
}

/// The tree of a copy of an expression, and what is printed of it.
fn tell_copy(exp: &Exp, sheet: &mut Sheet) {
    match exp.copy(sheet.alloc()) {
        Ok(copy) => tell_of_exp(&copy, sheet),
        Err(_) => tell_fault(SyntaxFault::Memory, sheet),
    }
}

/// The tree of an expression, and what is printed of it.
fn tell_of_exp(exp: &Exp, sheet: &mut Sheet) {
    write_exp(exp, sheet);
    sheet.write(" is ");
    tell_printed(print_exp(sheet.alloc(), exp), sheet);
}

/// The tree of what is printed of a cell.
fn tell_again(cell: &Cell, sheet: &mut Sheet) {
    match print_cell(sheet.alloc(), cell) {
        Ok(line) => tell_tree(&line, sheet),
        Err(fault) => tell_fault(fault, sheet),
    }
}

/// The tree of the cell of a text.
fn tell_tree(text: &str, sheet: &mut Sheet) {
    match parse_cell(sheet.alloc(), text) {
        Ok(cell) => write_cell(&cell, sheet),
        Err(fault) => tell_fault(fault, sheet),
    }
}

/// What is printed of each procedure.
fn tell_procedures(cell: &Cell, sheet: &mut Sheet) {
    for procedure in &cell.procedures {
        tell_printed(print_procedure(sheet.alloc(), procedure), sheet);
        sheet.write("; ");
    }
}

/// What is printed of the inverse of a cell.
fn tell_inverse(cell: &Cell, sheet: &mut Sheet) {
    match invert(sheet.alloc(), cell) {
        Ok(inverse) => tell_printed(print_cell(sheet.alloc(), &inverse), sheet),
        Err(_) => tell_fault(SyntaxFault::Memory, sheet),
    }
}
