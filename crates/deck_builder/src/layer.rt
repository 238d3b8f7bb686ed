//! Layers.

ghost use Rattle.std.specs.Prelude.{IfOk};
ghost use Rattle.deck_grammar.specs.Rules as r;
ghost use Rattle.deck_cursor.specs.Steps.{Reads};
ghost use Rattle.deck_builder.specs.Reading.{Precedes};
ghost use Rattle.deck_builder.specs.Nests.{Nests};

use crate::bounds::limits;
use crate::distance::distance;
use crate::infix::{begins_operation, infix};
use crate::tokens::{name, sign, word};
use crate::value::value;
use deck_cursor::{Cursor, MAX_NESTING, Stop};
use deck_grammar::{Keyword, Kind, Sign};
use deck_tree::{DistanceKind, ExpandSide, Layer, Operation, Prefix, Primary, Term, Turn};
use sqlite_items::{Boxed, Items};
use std::alloc::Global;

// OVERUNDER, UNDEROVER or neither.
#[tactic(auto, using(crate::proofs::LayerRules::overunder, crate::proofs::LayerRules::underover, crate::proofs::LayerRules::no_turn))]
fn turn(cursor: &mut Cursor<'_>) -> Result<Option<Turn>, Stop>
    ensures { IfOk result (λ it. Reads r.turn cursor.old cursor.new it) }
{
    match cursor.peek() {
        Some(Kind::Keyword(Keyword::OverUnder)) => {
            word(cursor, Keyword::OverUnder)?;
            Ok(Some(Turn::OverUnder))
        }
        Some(Kind::Keyword(Keyword::UnderOver)) => {
            word(cursor, Keyword::UnderOver)?;
            Ok(Some(Turn::UnderOver))
        }
        _ => Ok(None),
    }
}

#[tactic(auto, using(crate::proofs::LayerRules::inside, crate::proofs::LayerRules::outside))]
fn side(cursor: &mut Cursor<'_>) -> Result<ExpandSide, Stop>
    ensures { IfOk result (λ it. Reads r.side cursor.old cursor.new it) }
{
    match cursor.peek() {
        Some(Kind::Keyword(Keyword::Inside)) => {
            word(cursor, Keyword::Inside)?;
            Ok(ExpandSide::Inside)
        }
        _ => {
            word(cursor, Keyword::Outside)?;
            Ok(ExpandSide::Outside)
        }
    }
}

// INT, EXT or ENC.
#[tactic(auto, using(crate::proofs::LayerRules::internal, crate::proofs::LayerRules::external, crate::proofs::LayerRules::enclosure))]
fn measured(alloc: Global, cursor: &mut Cursor<'_>) -> Result<Primary, Stop>
    ensures { IfOk result (λ it. Reads r.primary cursor.old cursor.new it) }
{
    match cursor.peek() {
        Some(Kind::Keyword(Keyword::Int)) => {
            let at = word(cursor, Keyword::Int)?;
            let check = distance(alloc, cursor, DistanceKind::Internal)?;
            Ok(Primary::Distance(at, Boxed::new(alloc, check)?))
        }
        Some(Kind::Keyword(Keyword::Ext)) => {
            let at = word(cursor, Keyword::Ext)?;
            let check = distance(alloc, cursor, DistanceKind::External)?;
            Ok(Primary::Distance(at, Boxed::new(alloc, check)?))
        }
        _ => {
            let at = word(cursor, Keyword::Enc)?;
            let check = distance(alloc, cursor, DistanceKind::Enclosure)?;
            Ok(Primary::Distance(at, Boxed::new(alloc, check)?))
        }
    }
}

/// The rules of layers. What stands in brackets is read by a function that is passed in, so that each rule is proved by
/// itself.
#[derive(Clone, Copy)]
pub struct Rules<F> {
    alloc: Global,
    /// How many brackets may still open.
    depth: u64,
    layer: F,
}

impl<F: Fn(Global, &mut Cursor<'_>, u64) -> Result<Layer, Stop>> Rules<F> {
    fn inner(&self, cursor: &mut Cursor<'_>) -> Result<Layer, Stop>
        requires { Nests r.layer self.now.depth (F.pre self.now.layer) (F.post self.now.layer) }
        ensures { IfOk result (λ it. Reads r.layer cursor.old cursor.new it) }
    {
        (self.layer)(self.alloc, cursor, self.depth)
    }

    #[tactic(auto, using(crate::proofs::LayerRules::bracketed_term))]
    fn bracketed(&self, cursor: &mut Cursor<'_>) -> Result<Term, Stop>
        requires { Nests r.layer self.now.depth (F.pre self.now.layer) (F.post self.now.layer) }
        ensures { IfOk result (λ it. Reads r.term cursor.old cursor.new it) }
    {
        let at = sign(cursor, Sign::LeftRound)?;
        let layer = self.inner(cursor)?;
        sign(cursor, Sign::RightRound)?;
        Ok(Term::Bracketed(at, Boxed::new(self.alloc, layer)?))
    }

    #[tactic(auto, using(crate::proofs::LayerRules::name_term))]
    fn term(&self, cursor: &mut Cursor<'_>) -> Result<Term, Stop>
        requires { Nests r.layer self.now.depth (F.pre self.now.layer) (F.post self.now.layer) }
        ensures { IfOk result (λ it. Reads r.term cursor.old cursor.new it) }
    {
        match cursor.peek() {
            Some(Kind::Name) => Ok(Term::Name(name(self.alloc, cursor)?)),
            _ => self.bracketed(cursor),
        }
    }

    #[tactic(auto, using(crate::proofs::LayerRules::copy))]
    fn copy(&self, cursor: &mut Cursor<'_>) -> Result<Primary, Stop>
        requires { Nests r.layer self.now.depth (F.pre self.now.layer) (F.post self.now.layer) }
        ensures { IfOk result (λ it. Reads r.primary cursor.old cursor.new it) }
    {
        let at = word(cursor, Keyword::Copy)?;
        let term = self.term(cursor)?;
        Ok(Primary::Prefix(at, Boxed::new(self.alloc, Prefix::Copy(term))?))
    }

    #[tactic(auto, using(crate::proofs::LayerRules::rectangle))]
    fn rectangle(&self, cursor: &mut Cursor<'_>) -> Result<Primary, Stop>
        requires { Nests r.layer self.now.depth (F.pre self.now.layer) (F.post self.now.layer) }
        ensures { IfOk result (λ it. Reads r.primary cursor.old cursor.new it) }
    {
        let at = word(cursor, Keyword::Rectangle)?;
        let term = self.term(cursor)?;
        Ok(Primary::Prefix(at, Boxed::new(self.alloc, Prefix::Rectangle(term))?))
    }

    #[tactic(auto, using(crate::proofs::LayerRules::area))]
    fn area(&self, cursor: &mut Cursor<'_>) -> Result<Primary, Stop>
        requires { Nests r.layer self.now.depth (F.pre self.now.layer) (F.post self.now.layer) }
        ensures { IfOk result (λ it. Reads r.primary cursor.old cursor.new it) }
    {
        let at = word(cursor, Keyword::Area)?;
        let term = self.term(cursor)?;
        let kept = limits(self.alloc, cursor)?;
        Ok(Primary::Prefix(at, Boxed::new(self.alloc, Prefix::Area(term, kept))?))
    }

    #[tactic(auto, using(crate::proofs::LayerRules::length))]
    fn length(&self, cursor: &mut Cursor<'_>) -> Result<Primary, Stop>
        requires { Nests r.layer self.now.depth (F.pre self.now.layer) (F.post self.now.layer) }
        ensures { IfOk result (λ it. Reads r.primary cursor.old cursor.new it) }
    {
        let at = word(cursor, Keyword::Length)?;
        let term = self.term(cursor)?;
        let kept = limits(self.alloc, cursor)?;
        Ok(Primary::Prefix(at, Boxed::new(self.alloc, Prefix::Length(term, kept))?))
    }

    #[tactic(auto, using(crate::proofs::LayerRules::size))]
    fn size(&self, cursor: &mut Cursor<'_>) -> Result<Primary, Stop>
        requires { Nests r.layer self.now.depth (F.pre self.now.layer) (F.post self.now.layer) }
        ensures { IfOk result (λ it. Reads r.primary cursor.old cursor.new it) }
    {
        let at = word(cursor, Keyword::Size)?;
        let term = self.term(cursor)?;
        word(cursor, Keyword::By)?;
        let distance = value(self.alloc, cursor)?;
        let turn = turn(cursor)?;
        Ok(Primary::Prefix(
            at,
            Boxed::new(self.alloc, Prefix::Size(term, distance, turn))?,
        ))
    }

    #[tactic(auto, using(crate::proofs::LayerRules::angle))]
    fn angle(&self, cursor: &mut Cursor<'_>) -> Result<Primary, Stop>
        requires { Nests r.layer self.now.depth (F.pre self.now.layer) (F.post self.now.layer) }
        ensures { IfOk result (λ it. Reads r.primary cursor.old cursor.new it) }
    {
        let at = word(cursor, Keyword::Angle)?;
        let term = self.term(cursor)?;
        sign(cursor, Sign::EqualTo)?;
        let angle = value(self.alloc, cursor)?;
        Ok(Primary::Prefix(at, Boxed::new(self.alloc, Prefix::Angle(term, angle))?))
    }

    #[tactic(auto, using(crate::proofs::LayerRules::expand))]
    fn expand(&self, cursor: &mut Cursor<'_>) -> Result<Primary, Stop>
        requires { Nests r.layer self.now.depth (F.pre self.now.layer) (F.post self.now.layer) }
        ensures { IfOk result (λ it. Reads r.primary cursor.old cursor.new it) }
    {
        let at = word(cursor, Keyword::Expand)?;
        word(cursor, Keyword::Edge)?;
        let term = self.term(cursor)?;
        let side = side(cursor)?;
        word(cursor, Keyword::By)?;
        let distance = value(self.alloc, cursor)?;
        Ok(Primary::Prefix(
            at,
            Boxed::new(self.alloc, Prefix::Expand(term, side, distance))?,
        ))
    }

    #[tactic(auto, using(crate::proofs::LayerRules::as_primary))]
    fn primary(&self, cursor: &mut Cursor<'_>) -> Result<Primary, Stop>
        requires { Nests r.layer self.now.depth (F.pre self.now.layer) (F.post self.now.layer) }
        ensures { IfOk result (λ it. Reads r.primary cursor.old cursor.new it) }
    {
        match cursor.peek() {
            Some(Kind::Keyword(Keyword::Copy)) => self.copy(cursor),
            Some(Kind::Keyword(Keyword::Rectangle)) => self.rectangle(cursor),
            Some(Kind::Keyword(Keyword::Area)) => self.area(cursor),
            Some(Kind::Keyword(Keyword::Length)) => self.length(cursor),
            Some(Kind::Keyword(Keyword::Size)) => self.size(cursor),
            Some(Kind::Keyword(Keyword::Angle)) => self.angle(cursor),
            Some(Kind::Keyword(Keyword::Expand)) => self.expand(cursor),
            Some(Kind::Keyword(_)) => measured(self.alloc, cursor),
            _ => Ok(Primary::Term(self.term(cursor)?)),
        }
    }

    #[tactic(auto, using(crate::proofs::LayerRules::operation_is))]
    fn operation(&self, cursor: &mut Cursor<'_>) -> Result<Operation, Stop>
        requires { Nests r.layer self.now.depth (F.pre self.now.layer) (F.post self.now.layer) }
        ensures { IfOk result (λ it. Precedes r.operations (λ all. all) cursor.old cursor.new it) }
    {
        let (at, operator) = infix(cursor)?;
        let right = self.primary(cursor)?;
        Ok(Operation {
            at,
            operator,
            right,
        })
    }

    fn operations(&self, cursor: &mut Cursor<'_>) -> Result<Items<Operation>, Stop>
        requires { Nests r.layer self.now.depth (F.pre self.now.layer) (F.post self.now.layer) }
        ensures { IfOk result (λ all. Reads r.operations cursor.old cursor.new all) }
    {
        let mut found = Items::new(self.alloc);
        for _turn in 0..cursor.left() {
            if !begins_operation(cursor.peek()) {
                return Ok(found);
            }
            found.push(self.operation(cursor)?)?;
        }
        Ok(found)
    }

    #[tactic(auto, using(crate::proofs::LayerRules::layer_of))]
    fn layer(&self, cursor: &mut Cursor<'_>) -> Result<Layer, Stop>
        requires { Nests r.layer self.now.depth (F.pre self.now.layer) (F.post self.now.layer) }
        ensures { IfOk result (λ it. Reads r.layer cursor.old cursor.new it) }
    {
        let first = self.primary(cursor)?;
        let more = self.operations(cursor)?;
        Ok(Layer { first, more })
    }
}

fn nested(alloc: Global, cursor: &mut Cursor<'_>, depth: u64) -> Result<Layer, Stop>
    ensures { IfOk result (λ it. Reads r.layer cursor.old cursor.new it) }
{
    if depth == 0 {
        return Err(Stop::Wrong);
    }
    let rules = Rules {
        alloc,
        depth: depth - 1,
        layer: nested,
    };
    rules.layer(cursor)
}

/// A layer.
pub fn layer(alloc: Global, cursor: &mut Cursor<'_>) -> Result<Layer, Stop>
    ensures { IfOk result (λ it. Reads r.layer cursor.old cursor.new it) }
{
    nested(alloc, cursor, MAX_NESTING + 1)
}
