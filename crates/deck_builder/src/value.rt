//! Values.

ghost use Rattle.std.specs.Prelude.{◌≡◌, IfOk};
ghost use Rattle.deck_grammar.specs.Rules as r;
ghost use Rattle.deck_cursor.specs.Steps.{Reads};
ghost use Rattle.deck_builder.specs.Reading.{Precedes, ReadsAtom};
ghost use Rattle.deck_builder.specs.Nests.{Nests};
ghost use Rattle.deck_builder.specs.Signs.{addend_sign, factor_sign, sign_of_addend, sign_of_factor};

use crate::tokens::{name, number, sign};
use deck_cursor::{Cursor, MAX_NESTING, Stop};
use deck_grammar::{Kind, Sign};
use deck_tree::{AddSign, Addend, Atom, Exponent, Factor, Power, Product, ProductSign, Value};
use sqlite_items::{Boxed, Items};
use std::alloc::Global;

fn addend_sign(kind: Option<Kind>) -> Option<AddSign>
    ensures { result ≡ addend_sign kind }
{
    match kind {
        Some(Kind::Sign(Sign::Plus)) => Some(AddSign::Plus),
        Some(Kind::Sign(Sign::Minus)) => Some(AddSign::Minus),
        _ => None,
    }
}

fn factor_sign(kind: Option<Kind>) -> Option<ProductSign>
    ensures { result ≡ factor_sign kind }
{
    match kind {
        Some(Kind::Sign(Sign::Times)) => Some(ProductSign::Times),
        Some(Kind::Sign(Sign::Over)) => Some(ProductSign::Over),
        Some(Kind::Sign(Sign::Modulo)) => Some(ProductSign::Modulo),
        _ => None,
    }
}

fn sign_of_addend(is: AddSign) -> Sign
    ensures { result ≡ sign_of_addend is }
{
    match is {
        AddSign::Plus => Sign::Plus,
        AddSign::Minus => Sign::Minus,
    }
}

fn sign_of_factor(is: ProductSign) -> Sign
    ensures { result ≡ sign_of_factor is }
{
    match is {
        ProductSign::Times => Sign::Times,
        ProductSign::Over => Sign::Over,
        ProductSign::Modulo => Sign::Modulo,
    }
}

/// The rules of values. What stands in brackets is read by a function that is passed in, so that each rule is proved
/// by itself.
#[derive(Clone, Copy)]
pub struct Rules<F> {
    alloc: Global,
    /// How many brackets may still open.
    depth: u64,
    value: F,
}

impl<F: Fn(Global, &mut Cursor<'_>, u64) -> Result<Value, Stop>> Rules<F> {
    fn inner(&self, cursor: &mut Cursor<'_>) -> Result<Value, Stop>
        requires { Nests r.value self.now.depth (F.pre self.now.value) (F.post self.now.value) }
        ensures { IfOk result (λ it. Reads r.value cursor.old cursor.new it) }
    {
        (self.value)(self.alloc, cursor, self.depth)
    }

    #[tactic(auto, using(crate::proofs::ValueRules::bracketed_behind))]
    fn bracketed(&self, cursor: &mut Cursor<'_>, minus: Option<u64>) -> Result<Atom, Stop>
        requires { Nests r.value self.now.depth (F.pre self.now.value) (F.post self.now.value) }
        ensures { IfOk result (λ it. ReadsAtom minus cursor.old cursor.new it) }
    {
        let at = sign(cursor, Sign::LeftRound)?;
        let value = self.inner(cursor)?;
        sign(cursor, Sign::RightRound)?;
        Ok(Atom::Bracketed(minus, at, Boxed::new(self.alloc, value)?))
    }

    // An atom behind the minus at this offset, if there is one.
    #[tactic(auto, using(crate::proofs::ValueRules::number_behind, crate::proofs::ValueRules::name_behind))]
    fn unsigned(&self, cursor: &mut Cursor<'_>, minus: Option<u64>) -> Result<Atom, Stop>
        requires { Nests r.value self.now.depth (F.pre self.now.value) (F.post self.now.value) }
        ensures { IfOk result (λ it. ReadsAtom minus cursor.old cursor.new it) }
    {
        match cursor.peek() {
            Some(Kind::Number) => Ok(Atom::Number(minus, number(self.alloc, cursor)?)),
            Some(Kind::Name) => Ok(Atom::Name(minus, name(self.alloc, cursor)?)),
            _ => self.bracketed(cursor, minus),
        }
    }

    fn atom(&self, cursor: &mut Cursor<'_>) -> Result<Atom, Stop>
        requires { Nests r.value self.now.depth (F.pre self.now.value) (F.post self.now.value) }
        ensures { IfOk result (λ it. Reads r.atom cursor.old cursor.new it) }
    {
        match cursor.peek() {
            Some(Kind::Sign(Sign::Minus)) => {
                let minus = sign(cursor, Sign::Minus)?;
                self.unsigned(cursor, Some(minus))
            }
            _ => self.unsigned(cursor, None),
        }
    }

    #[tactic(auto, using(crate::proofs::ValueRules::an_exponent, crate::proofs::ValueRules::no_exponent))]
    fn exponent(&self, cursor: &mut Cursor<'_>) -> Result<Option<Boxed<Exponent>>, Stop>
        requires { Nests r.value self.now.depth (F.pre self.now.value) (F.post self.now.value) }
        ensures { IfOk result (λ it. Reads r.exponent cursor.old cursor.new it) }
    {
        match cursor.peek() {
            Some(Kind::Sign(Sign::Power)) => {
                let at = sign(cursor, Sign::Power)?;
                let atom = self.atom(cursor)?;
                Ok(Some(Boxed::new(self.alloc, Exponent { at, atom })?))
            }
            _ => Ok(None),
        }
    }

    #[tactic(auto, using(crate::proofs::ValueRules::power_of))]
    fn power(&self, cursor: &mut Cursor<'_>) -> Result<Power, Stop>
        requires { Nests r.value self.now.depth (F.pre self.now.value) (F.post self.now.value) }
        ensures { IfOk result (λ it. Reads r.power cursor.old cursor.new it) }
    {
        let base = self.atom(cursor)?;
        let exponent = self.exponent(cursor)?;
        Ok(Power { base, exponent })
    }

    #[tactic(auto, using(crate::proofs::ValueRules::is_factor))]
    fn factor(&self, cursor: &mut Cursor<'_>, is: ProductSign) -> Result<Factor, Stop>
        requires { Nests r.value self.now.depth (F.pre self.now.value) (F.post self.now.value) }
        ensures { IfOk result (λ it. Precedes r.factors (λ all. all) cursor.old cursor.new it) }
    {
        let at = sign(cursor, sign_of_factor(is))?;
        let power = self.power(cursor)?;
        Ok(Factor {
            at,
            sign: is,
            power,
        })
    }

    fn factors(&self, cursor: &mut Cursor<'_>) -> Result<Items<Factor>, Stop>
        requires { Nests r.value self.now.depth (F.pre self.now.value) (F.post self.now.value) }
        ensures { IfOk result (λ all. Reads r.factors cursor.old cursor.new all) }
    {
        let mut found = Items::new(self.alloc);
        for _turn in 0..cursor.left() {
            let Some(is) = factor_sign(cursor.peek()) else {
                return Ok(found);
            };
            found.push(self.factor(cursor, is)?)?;
        }
        Ok(found)
    }

    #[tactic(auto, using(crate::proofs::ValueRules::product_of))]
    fn product(&self, cursor: &mut Cursor<'_>) -> Result<Product, Stop>
        requires { Nests r.value self.now.depth (F.pre self.now.value) (F.post self.now.value) }
        ensures { IfOk result (λ it. Reads r.product cursor.old cursor.new it) }
    {
        let first = self.power(cursor)?;
        let more = self.factors(cursor)?;
        Ok(Product { first, more })
    }

    #[tactic(auto, using(crate::proofs::ValueRules::is_addend))]
    fn addend(&self, cursor: &mut Cursor<'_>, is: AddSign) -> Result<Addend, Stop>
        requires { Nests r.value self.now.depth (F.pre self.now.value) (F.post self.now.value) }
        ensures { IfOk result (λ it. Precedes r.addends (λ all. all) cursor.old cursor.new it) }
    {
        let at = sign(cursor, sign_of_addend(is))?;
        let product = self.product(cursor)?;
        Ok(Addend {
            at,
            sign: is,
            product,
        })
    }

    fn addends(&self, cursor: &mut Cursor<'_>) -> Result<Items<Addend>, Stop>
        requires { Nests r.value self.now.depth (F.pre self.now.value) (F.post self.now.value) }
        ensures { IfOk result (λ all. Reads r.addends cursor.old cursor.new all) }
    {
        let mut found = Items::new(self.alloc);
        for _turn in 0..cursor.left() {
            let Some(is) = addend_sign(cursor.peek()) else {
                return Ok(found);
            };
            found.push(self.addend(cursor, is)?)?;
        }
        Ok(found)
    }

    #[tactic(auto, using(crate::proofs::ValueRules::value_of))]
    fn value(&self, cursor: &mut Cursor<'_>) -> Result<Value, Stop>
        requires { Nests r.value self.now.depth (F.pre self.now.value) (F.post self.now.value) }
        ensures { IfOk result (λ it. Reads r.value cursor.old cursor.new it) }
    {
        let first = self.product(cursor)?;
        let more = self.addends(cursor)?;
        Ok(Value { first, more })
    }
}

fn nested(alloc: Global, cursor: &mut Cursor<'_>, depth: u64) -> Result<Value, Stop>
    ensures { IfOk result (λ it. Reads r.value cursor.old cursor.new it) }
{
    if depth == 0 {
        return Err(Stop::Wrong);
    }
    let rules = Rules {
        alloc,
        depth: depth - 1,
        value: nested,
    };
    rules.value(cursor)
}

/// A value.
pub fn value(alloc: Global, cursor: &mut Cursor<'_>) -> Result<Value, Stop>
    ensures { IfOk result (λ it. Reads r.value cursor.old cursor.new it) }
{
    nested(alloc, cursor, MAX_NESTING + 1)
}
