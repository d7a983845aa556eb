//! Which declared names a cell names.
ghost use Rattle.std.specs.Prelude.{◌≡◌, not, ◌&&◌, ◌||◌};
ghost use Rattle.std.specs.List.{list_any};
ghost use Rattle.janus_syntax.specs.Tree.{name_view, names_view, exp_view, stm_view, block_view, declaration_view, declarations_view, cell_view};
ghost use Rattle.janus_check.specs.Naming.{is_it, in_exp, in_stm, in_block, in_declaration, in_cell};

use janus_syntax::tree::{Cell, Declaration, Exp, Name, Stm};

/// Whether it was found, or this is the name.
fn is_name(name: &str, used: &Name, found: bool) -> bool
    ensures { result ≡ found || is_it name.now (name_view used.now) }
{
    found || used.text.as_str() == name
}

/// Whether it was found, or an expression names it.
#[tactic(auto, using(crate::proofs::Found::or_or))]
fn exp_names(name: &str, exp: &Exp, found: bool) -> bool
    ensures { result ≡ found || in_exp name.now (exp_view exp.now) }
{
    match exp {
        Exp::Number(_, _) => found,
        Exp::Variable(used) => is_name(name, used, found),
        Exp::Element(used, index) => {
            let next = is_name(name, used, found);
            exp_names(name, index, next)
        }
        Exp::Empty(used) | Exp::Top(used) => is_name(name, used, found),
        Exp::Negative(operand) => exp_names(name, operand, found),
        Exp::Binary(_, left, right) => {
            let next = exp_names(name, left, found);
            exp_names(name, right, next)
        }
        Exp::And(left, right) => {
            let next = exp_names(name, left, found);
            exp_names(name, right, next)
        }
        Exp::Or(left, right) => {
            let next = exp_names(name, left, found);
            exp_names(name, right, next)
        }
    }
}

/// Whether it was found, or stands in the statements of a local, where the local's own name is another.
fn is_inside(name: &str, local: &Name, inside: bool, found: bool) -> bool
    ensures { result ≡ found || (not (is_it name.now (name_view local.now)) && inside) }
{
    found || (!is_name(name, local, false) && inside)
}

/// Whether it is one of the arguments of a call.
fn arguments_name(name: &str, arguments: &[Name]) -> bool
    ensures { result ≡ list_any (is_it name.now) (names_view arguments.now) }
{
    let mut found = false;
    for argument in arguments {
        found = is_name(name, argument, found);
    }
    found
}

/// Whether it was found, or a statement names it.
#[cycle(stm_names)]
fn stm_names(name: &str, stm: &Stm, found: bool) -> bool
    ensures { result ≡ found || in_stm name.now (stm_view stm.now) }
{
    match stm {
        Stm::Skip => found,
        Stm::Assign(used, _, exp) => {
            let next = is_name(name, used, found);
            exp_names(name, exp, next)
        }
        Stm::AssignElement(used, index, _, exp) => {
            let next = is_name(name, used, found);
            let next = exp_names(name, index, next);
            exp_names(name, exp, next)
        }
        Stm::Push(variable, stack) | Stm::Pop(variable, stack) => {
            let next = is_name(name, variable, found);
            is_name(name, stack, next)
        }
        Stm::Swap(one, other) => {
            let next = is_name(name, one, found);
            is_name(name, other, next)
        }
        Stm::If(test, then_part, else_part, last) => {
            let next = exp_names(name, test, found);
            let next = block_names(name, then_part, next);
            let next = block_names(name, else_part, next);
            exp_names(name, last, next)
        }
        Stm::Loop(entry, do_part, loop_part, exit) => {
            let next = exp_names(name, entry, found);
            let next = block_names(name, do_part, next);
            let next = block_names(name, loop_part, next);
            exp_names(name, exit, next)
        }
        Stm::LocalInt(local, begin, body, _, end) => {
            let next = exp_names(name, begin, found);
            let inside = block_names(name, body, false);
            let next = is_inside(name, local, inside, next);
            exp_names(name, end, next)
        }
        Stm::LocalStack(local, body, _) => {
            let inside = block_names(name, body, false);
            is_inside(name, local, inside, found)
        }
        Stm::Call(_, arguments) => found || arguments_name(name, arguments),
        Stm::Uncall(_, arguments) => found || arguments_name(name, arguments),
    }
}

/// Whether it was found, or one of the statements names it.
#[cycle(stm_names)]
fn block_names(name: &str, statements: &[Stm], found: bool) -> bool
    ensures { result ≡ found || in_block name.now (block_view statements.now) }
{
    let mut next = found;
    for i in 0..statements.len() {
        next = stm_names(name, &statements[i], next);
    }
    next
}

/// Whether it was found, or a declaration declares it.
fn declaration_names(name: &str, declaration: &Declaration, found: bool) -> bool
    ensures { result ≡ found || in_declaration name.now (declaration_view declaration.now) }
{
    match declaration {
        Declaration::Int(used) => is_name(name, used, found),
        Declaration::Array(used, _, _) => is_name(name, used, found),
        Declaration::Stack(used) => is_name(name, used, found),
    }
}

/// Whether one of the declarations declares it.
fn declarations_name(name: &str, declarations: &[Declaration]) -> bool
    ensures { result ≡ list_any (in_declaration name.now) (declarations_view declarations.now) }
{
    let mut found = false;
    for declaration in declarations {
        found = declaration_names(name, declaration, found);
    }
    found
}

/// Whether a cell names it, in its declarations or its statements.
pub fn cell_names(name: &str, cell: &Cell) -> bool
    ensures { result ≡ in_cell name.now (cell_view cell.now) }
{
    let found = declarations_name(name, &cell.declarations);
    block_names(name, &cell.statements, found)
}
