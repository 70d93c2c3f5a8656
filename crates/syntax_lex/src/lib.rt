//! The lexical grammar's tables: identifier names, reserved words, line terminators, operators and how tightly
//! they bind, bases of numbers, and the editions of the language.
#![tactic(auto)]

pub mod es_target;
mod estree;
pub mod identifier;
pub mod keyword;
pub mod line_terminator;
pub mod number;
pub mod operator;
pub mod precedence;
