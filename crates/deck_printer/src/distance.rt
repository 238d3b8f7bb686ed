//! The text of checks of distances.

ghost use Rattle.std.specs.Prelude.{◌≡◌, ◌++◌, OnOk};
ghost use Rattle.deck_printer.specs.Layers.{distance_kind_text, input_text, second_text, abut_text, singular_text, metric_text, gap_text, region_text, options_text, distance_text};

use crate::limits::push_bound;
use crate::value::push_value;
use deck_tree::{Distance, DistanceKind, Gap, Input, Metric, Options, Value};
use sqlite_items::Boxed;
use std::alloc::AllocError;

fn push_kind(text: &mut Vec<u8>, kind: DistanceKind) -> Result<(), AllocError>
    ensures { OnOk result (text.new.items ≡ text.old.items ++ distance_kind_text kind) }
{
    match kind {
        DistanceKind::Internal => text.extend_from_slice(b"INT"),
        DistanceKind::External => text.extend_from_slice(b"EXT"),
        DistanceKind::Enclosure => text.extend_from_slice(b"ENC"),
    }
}

fn push_input(text: &mut Vec<u8>, input: &Input) -> Result<(), AllocError>
    ensures { OnOk result (text.new.items ≡ text.old.items ++ input_text input.now) }
{
    match input {
        Input::Plain(name) => {
            text.extend_from_slice(b" ")?;
            text.extend_from_slice(name.name.bytes())
        }
        Input::Bracketed(_, name) => {
            text.extend_from_slice(b" [")?;
            text.extend_from_slice(name.name.bytes())?;
            text.extend_from_slice(b"]")
        }
    }
}

fn push_second(text: &mut Vec<u8>, second: &Option<Input>) -> Result<(), AllocError>
    ensures { OnOk result (text.new.items ≡ text.old.items ++ second_text second.now) }
{
    match second {
        None => Ok(()),
        Some(input) => push_input(text, input),
    }
}

fn push_abut(text: &mut Vec<u8>, abut: &Option<Boxed<Value>>) -> Result<(), AllocError>
    ensures { OnOk result (text.new.items ≡ text.old.items ++ abut_text abut.now) }
{
    match abut {
        None => Ok(()),
        Some(value) => {
            text.extend_from_slice(b" ABUT < ")?;
            push_value(text, value.get())
        }
    }
}

fn push_singular(text: &mut Vec<u8>, singular: bool) -> Result<(), AllocError>
    ensures { OnOk result (text.new.items ≡ text.old.items ++ singular_text singular) }
{
    if singular {
        text.extend_from_slice(b" SINGULAR")
    } else {
        Ok(())
    }
}

fn push_metric(text: &mut Vec<u8>, metric: Option<Metric>) -> Result<(), AllocError>
    ensures { OnOk result (text.new.items ≡ text.old.items ++ metric_text metric) }
{
    match metric {
        None => Ok(()),
        Some(Metric::Opposite) => text.extend_from_slice(b" OPPOSITE"),
        Some(Metric::Square) => text.extend_from_slice(b" SQUARE"),
    }
}

fn push_gap(text: &mut Vec<u8>, gap: Option<Gap>) -> Result<(), AllocError>
    ensures { OnOk result (text.new.items ≡ text.old.items ++ gap_text gap) }
{
    match gap {
        None => Ok(()),
        Some(Gap::Notch) => text.extend_from_slice(b" NOTCH"),
        Some(Gap::Space) => text.extend_from_slice(b" SPACE"),
    }
}

fn push_region(text: &mut Vec<u8>, region: bool) -> Result<(), AllocError>
    ensures { OnOk result (text.new.items ≡ text.old.items ++ region_text region) }
{
    if region {
        text.extend_from_slice(b" REGION")
    } else {
        Ok(())
    }
}

fn push_options(text: &mut Vec<u8>, options: &Options) -> Result<(), AllocError>
    ensures { OnOk result (text.new.items ≡ text.old.items ++ options_text options.now) }
{
    push_abut(text, &options.abut)?;
    push_singular(text, options.singular)?;
    push_metric(text, options.metric)?;
    push_gap(text, options.gap)?;
    push_region(text, options.region)
}

pub fn push_distance(text: &mut Vec<u8>, distance: &Distance) -> Result<(), AllocError>
    ensures { OnOk result (text.new.items ≡ text.old.items ++ distance_text distance.now) }
{
    push_kind(text, distance.kind)?;
    push_input(text, &distance.first)?;
    push_second(text, &distance.second)?;
    push_bound(text, &distance.bound)?;
    push_options(text, &distance.options)
}
