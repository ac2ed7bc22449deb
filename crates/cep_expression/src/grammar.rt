//! Expressions, by recursive descent. The rules that hold expressions take the reader of those as a parameter, so that each is proved by itself, and only `expression` calls itself.

ghost use Rattle.std.specs.Prelude.{◌≡◌};
ghost use Rattle.cep_reading.specs.Reading.{Reads};
ghost use Rattle.cep_expression.specs.Reader as spec;
ghost use Rattle.cep_expression.specs.Nests.{Nests};

use crate::aggregate::leaf;
use crate::chain::{all_of, any_of, comparison_of, prefixed, product_of, sum_of};
use crate::expr::{Cmp, SynExpr, SynFactor, SynTerm};
use crate::sign::{
    comparator, factor_sign, prefix_sign, sees_comparator, sees_factor_sign, sees_prefix_sign,
    sees_term_sign, term_sign,
};
use cep_reading::{Cursor, Stop};
use sqlite_items::Items;
use std::alloc::Global;

#[derive(Clone, Copy)]
pub struct Grammar<F> {
    pub alloc: Global,
    /// How deep parentheses may still nest, and how long chains may be.
    pub room: usize,
    pub expression: F,
}

impl<F: Fn(Global, &mut Cursor<'_>, usize) -> Result<SynExpr, Stop>> Grammar<F> {
    fn expression(&self, cursor: &mut Cursor<'_>) -> Result<SynExpr, Stop>
        requires { Nests self.now.room (F.pre self.now.expression) (F.post self.now.expression) }
        ensures { Reads (spec.expression self.now.room cursor.old) result cursor.new }
    {
        (self.expression)(self.alloc, cursor, self.room)
    }

    #[tactic(auto, unfolding(crate::specs::Reader::in_parentheses))]
    fn in_parentheses(&self, cursor: &mut Cursor<'_>) -> Result<SynExpr, Stop>
        requires { Nests self.now.room (F.pre self.now.expression) (F.post self.now.expression) }
        ensures { Reads (spec.in_parentheses (spec.expression self.now.room) cursor.old) result cursor.new }
    {
        cursor.expect_symbol("(")?;
        let inner = self.expression(cursor)?;
        cursor.expect_symbol(")")?;
        Ok(inner)
    }

    #[tactic(auto, unfolding(crate::specs::Reader::primary))]
    fn primary(&self, cursor: &mut Cursor<'_>) -> Result<SynExpr, Stop>
        requires { Nests self.now.room (F.pre self.now.expression) (F.post self.now.expression) }
        ensures { Reads (spec.primary (spec.expression self.now.room) cursor.old) result cursor.new }
    {
        if cursor.sees_symbol("(") {
            self.in_parentheses(cursor)
        } else {
            leaf(self.alloc, cursor)
        }
    }

    #[tactic(auto, unfolding(crate::specs::Reader::prefixed_primary))]
    fn prefixed_primary(&self, cursor: &mut Cursor<'_>) -> Result<SynExpr, Stop>
        requires { Nests self.now.room (F.pre self.now.expression) (F.post self.now.expression) }
        ensures { Reads (spec.prefixed_primary (spec.expression self.now.room) cursor.old) result cursor.new }
    {
        let place = cursor.place();
        let how = prefix_sign(cursor)?;
        let operand = self.primary(cursor)?;
        let node = prefixed(self.alloc, how, operand)?;
        Ok(SynExpr { place, node })
    }

    #[tactic(auto, unfolding(crate::specs::Reader::unary))]
    fn unary(&self, cursor: &mut Cursor<'_>) -> Result<SynExpr, Stop>
        requires { Nests self.now.room (F.pre self.now.expression) (F.post self.now.expression) }
        ensures { Reads (spec.unary (spec.expression self.now.room) cursor.old) result cursor.new }
    {
        if sees_prefix_sign(cursor) {
            self.prefixed_primary(cursor)
        } else {
            self.primary(cursor)
        }
    }

    #[tactic(auto, unfolding(crate::specs::Reader::next_factor))]
    fn next_factor(&self, cursor: &mut Cursor<'_>) -> Result<SynFactor, Stop>
        requires { Nests self.now.room (F.pre self.now.expression) (F.post self.now.expression) }
        ensures { Reads (spec.next_factor (spec.expression self.now.room) cursor.old) result cursor.new }
    {
        let how = factor_sign(cursor)?;
        let expr = self.unary(cursor)?;
        Ok(SynFactor { how, expr })
    }

    fn factors(&self, cursor: &mut Cursor<'_>) -> Result<Items<SynFactor>, Stop>
        requires { Nests self.now.room (F.pre self.now.expression) (F.post self.now.expression) }
        ensures { Reads (spec.factors (spec.expression self.now.room) self.now.room cursor.old) result cursor.new }
    {
        let mut found = Items::new(self.alloc);
        for _turn in 0..self.room {
            if !sees_factor_sign(cursor) {
                return Ok(found);
            }
            found.push(self.next_factor(cursor)?)?;
        }
        Err(Stop::Spent)
    }

    /// `unary { ( "*" | "/" | "%" ) unary }`
    #[tactic(auto, unfolding(crate::specs::Reader::product))]
    fn product(&self, cursor: &mut Cursor<'_>) -> Result<SynExpr, Stop>
        requires { Nests self.now.room (F.pre self.now.expression) (F.post self.now.expression) }
        ensures { Reads (spec.product (spec.expression self.now.room) self.now.room cursor.old) result cursor.new }
    {
        let place = cursor.place();
        let first = self.unary(cursor)?;
        let more = self.factors(cursor)?;
        Ok(product_of(self.alloc, place, first, more)?)
    }

    #[tactic(auto, unfolding(crate::specs::Reader::next_term))]
    fn next_term(&self, cursor: &mut Cursor<'_>) -> Result<SynTerm, Stop>
        requires { Nests self.now.room (F.pre self.now.expression) (F.post self.now.expression) }
        ensures { Reads (spec.next_term (spec.expression self.now.room) self.now.room cursor.old) result cursor.new }
    {
        let minus = term_sign(cursor)?;
        let expr = self.product(cursor)?;
        Ok(SynTerm { minus, expr })
    }

    fn terms(&self, cursor: &mut Cursor<'_>) -> Result<Items<SynTerm>, Stop>
        requires { Nests self.now.room (F.pre self.now.expression) (F.post self.now.expression) }
        ensures { Reads (spec.terms (spec.expression self.now.room) self.now.room cursor.old) result cursor.new }
    {
        let mut found = Items::new(self.alloc);
        for _turn in 0..self.room {
            if !sees_term_sign(cursor) {
                return Ok(found);
            }
            found.push(self.next_term(cursor)?)?;
        }
        Err(Stop::Spent)
    }

    /// `product { ( "+" | "-" ) product }`
    #[tactic(auto, unfolding(crate::specs::Reader::sum))]
    fn sum(&self, cursor: &mut Cursor<'_>) -> Result<SynExpr, Stop>
        requires { Nests self.now.room (F.pre self.now.expression) (F.post self.now.expression) }
        ensures { Reads (spec.sum (spec.expression self.now.room) self.now.room cursor.old) result cursor.new }
    {
        let place = cursor.place();
        let first = self.product(cursor)?;
        let more = self.terms(cursor)?;
        Ok(sum_of(self.alloc, place, first, more)?)
    }

    #[tactic(auto, unfolding(crate::specs::Reader::compared_with))]
    fn compared_with(&self, cursor: &mut Cursor<'_>) -> Result<(Cmp, SynExpr), Stop>
        requires { Nests self.now.room (F.pre self.now.expression) (F.post self.now.expression) }
        ensures { Reads (spec.compared_with (spec.expression self.now.room) self.now.room cursor.old) result cursor.new }
    {
        let how = comparator(cursor)?;
        let right = self.sum(cursor)?;
        Ok((how, right))
    }

    #[tactic(auto, unfolding(crate::specs::Reader::other_side))]
    fn other_side(&self, cursor: &mut Cursor<'_>) -> Result<Option<(Cmp, SynExpr)>, Stop>
        requires { Nests self.now.room (F.pre self.now.expression) (F.post self.now.expression) }
        ensures { Reads (spec.other_side (spec.expression self.now.room) self.now.room cursor.old) result cursor.new }
    {
        if !sees_comparator(cursor) {
            return Ok(None);
        }
        let found = self.compared_with(cursor)?;
        Ok(Some(found))
    }

    #[tactic(auto, unfolding(crate::specs::Reader::comparison))]
    fn comparison(&self, cursor: &mut Cursor<'_>) -> Result<SynExpr, Stop>
        requires { Nests self.now.room (F.pre self.now.expression) (F.post self.now.expression) }
        ensures { Reads (spec.comparison (spec.expression self.now.room) self.now.room cursor.old) result cursor.new }
    {
        let place = cursor.place();
        let left = self.sum(cursor)?;
        let other = self.other_side(cursor)?;
        Ok(comparison_of(self.alloc, place, left, other)?)
    }

    #[tactic(auto, unfolding(crate::specs::Reader::next_conjunct))]
    fn next_conjunct(&self, cursor: &mut Cursor<'_>) -> Result<SynExpr, Stop>
        requires { Nests self.now.room (F.pre self.now.expression) (F.post self.now.expression) }
        ensures { Reads (spec.next_conjunct (spec.expression self.now.room) self.now.room cursor.old) result cursor.new }
    {
        cursor.expect_symbol("&&")?;
        self.comparison(cursor)
    }

    fn conjuncts(&self, cursor: &mut Cursor<'_>) -> Result<Items<SynExpr>, Stop>
        requires { Nests self.now.room (F.pre self.now.expression) (F.post self.now.expression) }
        ensures { Reads (spec.conjuncts (spec.expression self.now.room) self.now.room cursor.old) result cursor.new }
    {
        let mut found = Items::new(self.alloc);
        for _turn in 0..self.room {
            if !cursor.sees_symbol("&&") {
                return Ok(found);
            }
            found.push(self.next_conjunct(cursor)?)?;
        }
        Err(Stop::Spent)
    }

    /// `comparison { "&&" comparison }`
    #[tactic(auto, unfolding(crate::specs::Reader::all))]
    fn all(&self, cursor: &mut Cursor<'_>) -> Result<SynExpr, Stop>
        requires { Nests self.now.room (F.pre self.now.expression) (F.post self.now.expression) }
        ensures { Reads (spec.all (spec.expression self.now.room) self.now.room cursor.old) result cursor.new }
    {
        let place = cursor.place();
        let first = self.comparison(cursor)?;
        let more = self.conjuncts(cursor)?;
        Ok(all_of(self.alloc, place, first, more)?)
    }

    #[tactic(auto, unfolding(crate::specs::Reader::next_disjunct))]
    fn next_disjunct(&self, cursor: &mut Cursor<'_>) -> Result<SynExpr, Stop>
        requires { Nests self.now.room (F.pre self.now.expression) (F.post self.now.expression) }
        ensures { Reads (spec.next_disjunct (spec.expression self.now.room) self.now.room cursor.old) result cursor.new }
    {
        cursor.expect_symbol("||")?;
        self.all(cursor)
    }

    fn disjuncts(&self, cursor: &mut Cursor<'_>) -> Result<Items<SynExpr>, Stop>
        requires { Nests self.now.room (F.pre self.now.expression) (F.post self.now.expression) }
        ensures { Reads (spec.disjuncts (spec.expression self.now.room) self.now.room cursor.old) result cursor.new }
    {
        let mut found = Items::new(self.alloc);
        for _turn in 0..self.room {
            if !cursor.sees_symbol("||") {
                return Ok(found);
            }
            found.push(self.next_disjunct(cursor)?)?;
        }
        Err(Stop::Spent)
    }

    /// `and { "||" and }`
    #[tactic(auto, unfolding(crate::specs::Reader::any))]
    fn any(&self, cursor: &mut Cursor<'_>) -> Result<SynExpr, Stop>
        requires { Nests self.now.room (F.pre self.now.expression) (F.post self.now.expression) }
        ensures { Reads (spec.any (spec.expression self.now.room) self.now.room cursor.old) result cursor.new }
    {
        let place = cursor.place();
        let first = self.all(cursor)?;
        let more = self.disjuncts(cursor)?;
        Ok(any_of(self.alloc, place, first, more)?)
    }
}

/// An expression, read by what is left of the room, which bounds how deep parentheses nest and how long chains are.
pub fn expression(alloc: Global, cursor: &mut Cursor<'_>, room: usize) -> Result<SynExpr, Stop>
    ensures { Reads (spec.expression room cursor.old) result cursor.new }
{
    if room == 0 {
        return Err(Stop::Spent);
    }
    Grammar {
        alloc,
        room: room - 1,
        expression,
    }
    .any(cursor)
}
