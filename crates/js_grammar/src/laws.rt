//! The laws on printed expressions. The functions here do nothing: each has a law as its contract.

ghost use Rattle.js_grammar.specs.Laws.{
  OperatorsAreTheWords,
  PrintedTokensAreFewest,
  PrintedTokensDerive,
  ShapesAreSound,
  TokensDeriveOneShape,
};

/// The law that the tokens which an expression is printed as are that expression.
pub fn printed_tokens_derive()
    ensures { PrintedTokensDerive }
{}

/// The law that tokens are at most one expression.
pub fn tokens_derive_one_shape()
    ensures { TokensDeriveOneShape }
{}

/// The law that an expression can't be written with fewer tokens than it is printed as.
pub fn printed_tokens_are_fewest()
    ensures { PrintedTokensAreFewest }
{}

/// The law that the shapes of expressions in trees are sound (`IsSound`), which the law that printed tokens derive asks for.
pub fn shapes_are_sound()
    ensures { ShapesAreSound }
{}

/// The law that the operators of each kind of node are its words in the node table, in order.
pub fn operators_are_the_words()
    ensures { OperatorsAreTheWords }
{}
