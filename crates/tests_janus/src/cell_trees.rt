//! Rows of the tree of cells. `grow` adds a node with a character below a parent, `favour` makes a child its node's favourite,
//! `way` gives the way from a node to another and the nodes on its way down, `fill` fills another tree, and `faults` gives the
//! refusals. `nodes`, `full`, `has`, `path`, `meet`, `parent`, `favourite` and `content` ask.
ghost use Rattle.std.specs.Prelude.{◌≤◌, length};

use crate::subject::{Subject, tell_rows};
use cell_tree::{NODE_LIMIT, Node, Tree, TreeFault};
use tests_rows::{Sheet, cut, number};

/// Makes the calls on a new tree, and writes each with its answer.
pub(crate) fn tell(calls: &str, sheet: &mut Sheet) {
    match Tree::<char>::new(sheet.alloc()) {
        Ok(mut tree) => tell_rows(&mut tree, calls, sheet),
        Err(_) => sheet.refuse(),
    }
}

impl Subject for Tree<char> {
    fn answer(&mut self, call: &str, sheet: &mut Sheet) {
        let (word, rest) = cut(call);
        let (first, second) = cut(rest);
        let (node, other) = (number(first), number(second));
        match word {
            "grow" => grow(self, node, second, sheet),
            "favour" => favour(self, node, other, sheet),
            "way" => find_way(self, node, other, sheet),
            "fill" => fill(sheet),
            "faults" => tell_faults(sheet),
            _ => ask(self, word, node, other, sheet),
        }
    }
}

/// Adds a node with a character below the parent, and tells its number.
fn grow(tree: &mut Tree<char>, parent: usize, text: &str, sheet: &mut Sheet) {
    let content = text.chars().next().unwrap_or('-');
    sheet.show(&grown(tree, parent, content));
}

/// Adds a node with this content below the parent, and answers its number.
fn grown(tree: &mut Tree<char>, parent: usize, content: char) -> Result<usize, TreeFault> {
    tree.room()?;
    if !tree.has(parent) {
        return Err(TreeFault::NoNode);
    }
    Ok(tree.add(Node { parent, content }))
}

/// Makes a child its node's favourite.
fn favour(tree: &mut Tree<char>, node: usize, child: usize, sheet: &mut Sheet) {
    if child == 0 || !tree.has(child) || tree.parent(child) != node {
        return sheet.write("no child");
    }
    tree.set_favourite(node, child);
    sheet.show(&tree.favourite(node));
}

/// The way from a node to another, and the nodes on its way down.
fn find_way(tree: &mut Tree<char>, from: usize, to: usize, sheet: &mut Sheet) {
    if !tree.has(from) {
        return sheet.write("no node");
    }
    match tree.find_way(from, to) {
        Err(fault) => sheet.show(&fault),
        Ok(way) => {
            sheet.show(&way);
            tell_nodes_down(tree, way.down, sheet);
        }
    }
}

/// Writes the nodes on the way down, whose number is `down`.
fn tell_nodes_down(tree: &Tree<char>, down: usize, sheet: &mut Sheet)
    requires { down ≤ length tree.now.way }
{
    for turn in 0..down {
        sheet.write(" ");
        sheet.show(&tree.next_down(down - turn));
    }
}

/// Fills a new tree.
fn fill(sheet: &mut Sheet) {
    match Tree::<()>::new(sheet.alloc()) {
        Ok(mut tree) => fill_tree(&mut tree, sheet),
        Err(_) => sheet.refuse(),
    }
}

/// Adds as many nodes as a tree has, and tells how many it has then, whether it is full, and what becomes of a further one.
fn fill_tree(tree: &mut Tree<()>, sheet: &mut Sheet) {
    for _ in 0..NODE_LIMIT {
        grow_root(tree);
    }
    sheet.show(&tree.nodes());
    sheet.write(" ");
    sheet.show(&tree.is_full());
    sheet.write(" ");
    sheet.show(&tree.room());
}

/// Adds a node below the root, where there is room.
fn grow_root(tree: &mut Tree<()>) {
    if tree.room().is_ok() {
        tree.add(Node {
            parent: 0,
            content: (),
        });
    }
}

/// The refusals, with their numbers and words.
fn tell_faults(sheet: &mut Sheet) {
    tell_fault(TreeFault::HistoryFull, sheet);
    tell_fault(TreeFault::NoNode, sheet);
    tell_fault(TreeFault::Memory, sheet);
}

/// A refusal, with its number and word.
fn tell_fault(fault: TreeFault, sheet: &mut Sheet) {
    sheet.show(&fault);
    sheet.write(" ");
    sheet.show(&fault.number());
    sheet.write(" ");
    sheet.write(fault.name());
    sheet.write(";");
}

/// The answer to a question that changes nothing.
fn ask(tree: &Tree<char>, word: &str, node: usize, other: usize, sheet: &mut Sheet) {
    match word {
        "nodes" => sheet.show(&tree.nodes()),
        "full" => sheet.show(&tree.is_full()),
        "has" => sheet.show(&tree.has(node)),
        "path" => sheet.show(&tree.path(node)),
        "meet" => sheet.show(&tree.meet(node, other)),
        _ => ask_of_node(tree, word, node, sheet),
    }
}

/// The answer to a question about a node that there is.
fn ask_of_node(tree: &Tree<char>, word: &str, node: usize, sheet: &mut Sheet) {
    if !tree.has(node) {
        return sheet.write("no node");
    }
    match word {
        "parent" => sheet.show(&tree.parent(node)),
        "favourite" => sheet.show(&tree.favourite(node)),
        "content" if node > 0 => sheet.show(tree.content(node)),
        _ => sheet.write("no question"),
    }
}
