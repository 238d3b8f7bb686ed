//! The numbers of layers of the layout.

ghost use Rattle.std.specs.Prelude.{◌≡◌, ◌++◌, ◌∷◌, [], IfOk, OnOk};
ghost use Rattle.deck_values.specs.Numbers.{shown_numbers, map_numbers, statement_numbers, layer_numbers_of};

use deck_tree::{Deck, LayerMap, Number, Statement};
use std::alloc::{AllocError, Global};

/// The numbers of the deck's LAYER and LAYER MAP statements, those of data and text types among them, in the order of its
/// text. Only want of memory is an error.
pub fn layer_numbers<'d>(alloc: Global, deck: &'d Deck) -> Result<Vec<&'d Number>, AllocError>
    ensures { IfOk result (λ found. shown_numbers found.items ≡ layer_numbers_of deck.entry.now) }
{
    let mut found = Vec::new(alloc);
    for statement in deck.statements.as_slice() {
        push_statement(&mut found, statement)?;
    }
    Ok(found)
}

fn push_statement<'d>(
    found: &mut Vec<&'d Number>,
    statement: &'d Statement,
) -> Result<(), AllocError>
    ensures { OnOk result (shown_numbers found.new.items ≡ shown_numbers found.old.items ++ statement_numbers statement.entry.now) }
{
    match statement {
        Statement::Layer(_, _, numbers) => push_numbers(found, numbers.as_slice()),
        Statement::LayerMap(_, map) => push_map(found, map.get()),
        _ => Ok(()),
    }
}

fn push_numbers<'d>(found: &mut Vec<&'d Number>, numbers: &'d [Number]) -> Result<(), AllocError>
    ensures { OnOk result (shown_numbers found.new.items ≡ shown_numbers found.old.items ++ numbers.entry.now) }
{
    for number in numbers {
        push_number(found, number)?;
    }
    Ok(())
}

fn push_map<'d>(found: &mut Vec<&'d Number>, map: &'d LayerMap) -> Result<(), AllocError>
    ensures { OnOk result (shown_numbers found.new.items ≡ shown_numbers found.old.items ++ map_numbers map.entry.now) }
{
    push_number(found, &map.layer)?;
    push_number(found, &map.kind_number)?;
    push_number(found, &map.target)
}

#[tactic(auto, using(crate::proofs::Shown::one_number_more))]
fn push_number<'d>(found: &mut Vec<&'d Number>, number: &'d Number) -> Result<(), AllocError>
    ensures { OnOk result (shown_numbers found.new.items ≡ shown_numbers found.old.items ++ number.entry.now ∷ []) }
{
    found.push(number)?;
    Ok(())
}
