//! Which shapes of a layout a deck reads.

ghost use Rattle.std.specs.Prelude.{◌≡◌, ◌==◌, ◌&&◌, IsPermutation};
ghost use Rattle.std.specs.List.{list_any};
ghost use Rattle.std.specs.List.Sorted.{IsNonDecreasing};
ghost use Rattle.layer_model.specs.DrawnNumbers.{number_of, names, gives, takes};

use crate::map_row::MapRow;
use std::marker::Model;

/// The rows of LAYER MAP, and the layer numbers that are read.
#[derive(Debug, Drop)]
pub struct Reads {
    maps: Vec<MapRow>,
    numbers: Vec<u32>,
}

impl Model for Reads {
    ghost use Rattle.std.specs.List.Sorted.{IsNonDecreasing};
    ghost use Rattle.layer_model.specs.DrawnNumbers.{Reading};

    ghost Value = { Reading };

    ghost view = { λ r. record { maps = r.maps.items; numbers = r.numbers.items } };

    ghost invariant = { λ r. IsNonDecreasing r.numbers.items };
}

impl Reads {
    /// What these rows and numbers read. The numbers may stand in any order.
    pub fn new(maps: Vec<MapRow>, mut numbers: Vec<u32>) -> Reads
        ensures maps { result.maps ≡ maps.items }
        ensures numbers { IsPermutation numbers.items result.numbers }
    {
        numbers.sort_unstable();
        Reads { maps, numbers }
    }

    /// Whether shapes with this layer and data type of the layout go to a number that is read.
    pub fn takes(&self, layer: i16, datatype: i16) -> bool
        ensures { result ≡ takes self.now layer datatype }
    {
        let layer = counted(layer);
        let datatype = counted(datatype);
        if is_named(&self.maps, layer, datatype) {
            has_target_among(&self.maps, layer, datatype, &self.numbers)
        } else {
            is_among(layer, &self.numbers)
        }
    }

    /// Whether shapes with this layer and data type of the layout go to the number.
    pub fn gives(&self, layer: i16, datatype: i16, number: u32) -> bool
        ensures { result ≡ gives self.now.maps layer datatype number }
    {
        let layer = counted(layer);
        let datatype = counted(datatype);
        if is_named(&self.maps, layer, datatype) {
            has_target(&self.maps, layer, datatype, number)
        } else {
            layer == number
        }
    }
}

/// A layer or data type of the layout as it counts.
fn counted(number: i16) -> u32
    ensures { result ≡ number_of number }
{
    u32::from(number.cast_unsigned())
}

/// Whether a row names the pair.
fn is_named(rows: &[MapRow], layer: u32, datatype: u32) -> bool
    ensures { result ≡ list_any (names layer datatype) rows.now }
{
    rows.iter().any(|row| is_for(row, layer, datatype))
}

/// Whether a row that names the pair has the target.
fn has_target(rows: &[MapRow], layer: u32, datatype: u32, target: u32) -> bool
    ensures { result ≡ list_any (λ row. names layer datatype row && (row.target == target)) rows.now }
{
    rows.iter().any(|row| is_to(row, layer, datatype, target))
}

/// Whether a row that names the pair has a target among the numbers.
fn has_target_among(rows: &[MapRow], layer: u32, datatype: u32, numbers: &[u32]) -> bool
    requires { IsNonDecreasing numbers.now }
    ensures { result ≡ list_any (λ row. names layer datatype row && list_any (λ n. row.target == n) numbers.now) rows.now }
{
    rows.iter()
        .any(|row| is_to_one(row, layer, datatype, numbers))
}

fn is_for(row: &MapRow, layer: u32, datatype: u32) -> bool
    ensures { result ≡ names layer datatype row.now }
{
    row.layer == layer && row.datatype == datatype
}

fn is_to(row: &MapRow, layer: u32, datatype: u32, target: u32) -> bool
    ensures { result ≡ (names layer datatype row.now && (row.now.target == target)) }
{
    is_for(row, layer, datatype) && row.target == target
}

fn is_to_one(row: &MapRow, layer: u32, datatype: u32, numbers: &[u32]) -> bool
    requires { IsNonDecreasing numbers.now }
    ensures { result ≡ (names layer datatype row.now && list_any (λ n. row.now.target == n) numbers.now) }
{
    is_for(row, layer, datatype) && is_among(row.target, numbers)
}

fn is_among(number: u32, numbers: &[u32]) -> bool
    requires { IsNonDecreasing numbers.now }
    ensures { result ≡ list_any (λ n. number == n) numbers.now }
{
    numbers.binary_search(&number).is_ok()
}
