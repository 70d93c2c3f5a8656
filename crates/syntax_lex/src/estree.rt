//! Operators in ESTree's JSON: each is the string of its text.

ghost use Rattle.json_text.specs.Json.{string};
ghost use Rattle.json_text.specs.Units.{units_of};
ghost use Rattle.oxc_estree.specs.Out.{plain};
ghost use Rattle.syntax_lex.specs.AssignmentOperator as assignment;
ghost use Rattle.syntax_lex.specs.BinaryOperator as binary;
ghost use Rattle.syntax_lex.specs.LogicalOperator as logical;
ghost use Rattle.syntax_lex.specs.UnaryOperator as unary;
ghost use Rattle.syntax_lex.specs.UpdateOperator as update;

use crate::operator::{
    AssignmentOperator, BinaryOperator, LogicalOperator, UnaryOperator, UpdateOperator,
};
use oxc_estree::{ESTree, JsonStr, Serializer};
use std::alloc::AllocError;

impl ESTree for AssignmentOperator {
    ghost meaning = { λ operator _. plain (string (units_of (assignment.text_of operator))) };

    fn serialize<S: Serializer>(&self, serializer: &mut S) -> Result<(), AllocError> {
        JsonStr(self.as_str()).serialize(serializer)
    }
}

impl ESTree for BinaryOperator {
    ghost meaning = { λ operator _. plain (string (units_of (binary.text_of operator))) };

    fn serialize<S: Serializer>(&self, serializer: &mut S) -> Result<(), AllocError> {
        JsonStr(self.as_str()).serialize(serializer)
    }
}

impl ESTree for LogicalOperator {
    ghost meaning = { λ operator _. plain (string (units_of (logical.text_of operator))) };

    fn serialize<S: Serializer>(&self, serializer: &mut S) -> Result<(), AllocError> {
        JsonStr(self.as_str()).serialize(serializer)
    }
}

impl ESTree for UnaryOperator {
    ghost meaning = { λ operator _. plain (string (units_of (unary.text_of operator))) };

    fn serialize<S: Serializer>(&self, serializer: &mut S) -> Result<(), AllocError> {
        JsonStr(self.as_str()).serialize(serializer)
    }
}

impl ESTree for UpdateOperator {
    ghost meaning = { λ operator _. plain (string (units_of (update.text_of operator))) };

    fn serialize<S: Serializer>(&self, serializer: &mut S) -> Result<(), AllocError> {
        JsonStr(self.as_str()).serialize(serializer)
    }
}
