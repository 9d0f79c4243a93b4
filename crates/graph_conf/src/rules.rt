//! The rule of a node, by its kind.
ghost use Rattle.std.specs.Prelude.{◌≡◌, codes, pos, IfOk};
ghost use Rattle.toml.specs.View.{view, table_view};
ghost use Rattle.nd_base.specs.GraphRules.{IsRoi, IsStats, IsCircular, IsFile, IsKind, IsSampleBound};
ghost use Rattle.nd_base.specs.GraphRules as graph_rules;
ghost use Rattle.graph_conf.specs.Answers.{Gives};
ghost use Rattle.graph_conf.specs.Keys.{word_in};
ghost use Rattle.graph_conf.specs.KindNames.{kind_word};
ghost use Rattle.graph_conf.specs.Nodes.{is_parallel, sample_types, type_key, sample_bound, attribute_key, mode_key, form_key, roi_rule, stats_rule};
ghost use Rattle.graph_conf.specs.Nodes.{circular_rule, file_rule, kind_rule};

use crate::GraphFault;
use crate::keys::{
    count, key_type, name_of, number, numbers, out_of_range, present, text_in, truth, truths,
    value_at,
};
use crate::kind::KindName;
use crate::words::{mode_named, sample_type_named};
use nd_base::{CircularRule, FileRule, Form, Kind, Mode, Name, RoiRule, SampleType, StatsRule};
use std::alloc::Global;
use toml::{Table, Value};
use trig_window::parse_calc;

/// The sample type that a value names.
fn sample_type(alloc: Global, value: &Value) -> Result<SampleType, GraphFault>
    ensures { Gives (λ t. t) result (word_in (codes "type") sample_types (view value.now)) }
{
    match sample_type_named(text_in(alloc, "type", value)?) {
        Some(kind) => Ok(kind),
        None => Err(key_type(alloc, "type")?),
    }
}

/// The output's sample type.
fn type_key(alloc: Global, table: &Table) -> Result<Option<SampleType>, GraphFault>
    ensures { Gives (λ out. out) result (type_key (table_view table.now)) }
{
    match value_at(table, "type") {
        Some(value) => Ok(Some(sample_type(alloc, value)?)),
        None => Ok(None),
    }
}

/// The rule of a region node.
#[tactic(auto, unfolding(crate::specs::Nodes::roi_rule))]
fn roi_rule(alloc: Global, table: &Table) -> Result<RoiRule, GraphFault>
    ensures gives { Gives (λ r. r) result (roi_rule (table_view table.now)) }
    ensures sound { IfOk result IsRoi }
{
    let min = numbers(alloc, table, "min")?;
    let size = numbers(alloc, table, "size")?;
    let bin = numbers(alloc, table, "bin")?;
    let reverse = truths(alloc, table, "reverse")?;
    let auto = truths(alloc, table, "auto")?;
    let scale = count(alloc, table, "scale", 1, 2_147_483_647, 1)? as u32;
    let out = type_key(alloc, table)?;
    Ok(RoiRule {
        min,
        size,
        bin,
        reverse,
        auto,
        scale,
        out,
    })
}

/// A bound of a sample.
fn sample_bound(alloc: Global, table: &Table, key: &str, default: u8) -> Result<i64, GraphFault>
    ensures gives { Gives (λ v. v) result (sample_bound key.now (pos default) (table_view table.now)) }
    ensures bound { IfOk result IsSampleBound }
{
    number(
        alloc,
        table,
        key,
        -2_147_483_648,
        4_294_967_295,
        i64::from(default),
    )
}

/// The rule of a statistics node.
#[tactic(auto, unfolding(crate::specs::Nodes::stats_rule))]
fn stats_rule(alloc: Global, table: &Table) -> Result<StatsRule, GraphFault>
    ensures gives { Gives (λ r. r) result (stats_rule (table_view table.now)) }
    ensures sound { IfOk result IsStats }
{
    let threshold = sample_bound(alloc, table, "threshold", 0)?;
    let border = count(alloc, table, "border", 0, 67_108_864, 0)? as u32;
    let hist_size = count(alloc, table, "hist_size", 0, 1_024, 0)? as u32;
    let hist_lo = sample_bound(alloc, table, "hist_lo", 0)?;
    let hist_hi = sample_bound(alloc, table, "hist_hi", 255)?;
    let profiles = truth(alloc, table, "profiles", false)?;
    if hist_size != 0 && hist_lo >= hist_hi {
        return Err(out_of_range(alloc, "hist_hi", hist_hi)?);
    }
    Ok(StatsRule {
        threshold,
        border,
        hist_size,
        hist_lo,
        hist_hi,
        profiles,
    })
}

/// The name of an attribute.
fn attribute_key(alloc: Global, table: &Table, key: &str) -> Result<Name, GraphFault>
    ensures { Gives (λ name. name) result (attribute_key key.now (table_view table.now)) }
{
    let text = match value_at(table, key) {
        Some(value) => text_in(alloc, key, value)?,
        None => "",
    };
    Ok(name_of(alloc, text)?)
}

/// The rule of a circular node.
#[tactic(auto, unfolding(crate::specs::Nodes::circular_rule))]
fn circular_rule(alloc: Global, table: &Table) -> Result<CircularRule, GraphFault>
    ensures gives { Gives (λ x. x) result (circular_rule (table_view table.now)) }
    ensures sound { IfOk result IsCircular }
{
    let pre = count(alloc, table, "pre", 0, 4_096, 0)? as u32;
    let post = count(alloc, table, "post", 1, 4_096, 1)? as u32;
    let preset = count(alloc, table, "preset", 0, 2_147_483_647, 0)? as u32;
    let words = text_in(alloc, "trigger", present(alloc, table, "trigger")?)?;
    let trigger = parse_calc(alloc, words)?;
    let a = attribute_key(alloc, table, "a")?;
    let b = attribute_key(alloc, table, "b")?;
    Ok(CircularRule {
        pre,
        post,
        preset,
        trigger,
        a,
        b,
    })
}

/// How a file node groups its arrays.
fn mode_key(alloc: Global, table: &Table) -> Result<Mode, GraphFault>
    ensures { Gives (λ mode. mode) result (mode_key (table_view table.now)) }
{
    let value = present(alloc, table, "mode")?;
    match mode_named(text_in(alloc, "mode", value)?) {
        Some(mode) => Ok(mode),
        None => Err(key_type(alloc, "mode")?),
    }
}

/// The form of its files.
fn form_key(alloc: Global, table: &Table) -> Result<Form, GraphFault>
    ensures { Gives (λ form. form) result (form_key (table_view table.now)) }
{
    match count(alloc, table, "cdf", 1, 2, 1)? {
        2 => Ok(Form::Wide),
        _ => Ok(Form::Classic),
    }
}

/// The rule of a file node.
#[tactic(auto, unfolding(crate::specs::Nodes::file_rule))]
fn file_rule(alloc: Global, table: &Table) -> Result<FileRule, GraphFault>
    ensures gives { Gives (λ r. r) result (file_rule (table_view table.now)) }
    ensures sound { IfOk result IsFile }
{
    let mode = mode_key(alloc, table)?;
    let count = count(alloc, table, "count", 1, 65_536, 1)? as u32;
    match mode {
        Mode::Single if count != 1 => {
            return Err(out_of_range(alloc, "count", i64::from(count))?);
        }
        Mode::Single | Mode::Capture | Mode::Stream => {}
    }
    let form = form_key(alloc, table)?;
    Ok(FileRule { mode, count, form })
}

/// What a node of this kind does.
pub(crate) fn kind_rule(alloc: Global, kind: KindName, table: &Table) -> Result<Kind, GraphFault>
    ensures gives { Gives (λ x. x) result (kind_rule (kind_word kind) (table_view table.now)) }
    ensures sound { IfOk result IsKind }
    ensures parallel { IfOk result (λ rule. graph_rules.is_parallel rule ≡ is_parallel (kind_word kind)) }
{
    match kind {
        KindName::Roi => Ok(Kind::Roi(roi_rule(alloc, table)?)),
        KindName::Stats => Ok(Kind::Stats(stats_rule(alloc, table)?)),
        KindName::Circular => Ok(Kind::Circular(circular_rule(alloc, table)?)),
        KindName::File => Ok(Kind::File(file_rule(alloc, table)?)),
        KindName::Scatter => Ok(Kind::Scatter),
    }
}
