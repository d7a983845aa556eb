//! The laws of the grammar, each as the contract of a function that does nothing.

ghost use Rattle.janus_syntax.specs.Laws.{OneWanted, WantsIfOpen, OpenIfWants};
ghost use Rattle.janus_syntax.specs.Text.{OneRefusal, OneTokens, OneTree, TreeOrRefusal, NotBoth};

/// A text has one refusal at most, read as a cell or as an expression.
pub fn one_refusal_law()
    ensures { OneRefusal }
{}

/// A text has one list of tokens at most.
pub fn one_tokens_law()
    ensures { OneTokens }
{}

/// A text has one tree at most.
pub fn one_tree_law()
    ensures { OneTree }
{}

/// A text of characters has a tree or a refusal, and not both.
pub fn tree_or_refusal_law()
    ensures one { TreeOrRefusal }
    ensures not_both { NotBoth }
{}

/// Behind the beginning of a text one item is wanted at most, and one is behind just those tokens that begin a text.
pub fn wanted_law()
    ensures one { OneWanted }
    ensures if_open { WantsIfOpen }
    ensures open { OpenIfWants }
{}
