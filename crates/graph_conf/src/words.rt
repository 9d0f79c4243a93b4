//! Words that stand for a value, and the keys of a table.
ghost use Rattle.std.specs.Prelude.{◌≡◌, map};
ghost use Rattle.std.specs.List.{list_all, list_any};
ghost use Rattle.std.specs.Option.{option_map};
ghost use Rattle.std.specs.Str.{bytes_eq};
ghost use Rattle.toml.specs.View.{table_view};
ghost use Rattle.graph_conf.specs.Keys.{meaning_in, first_unknown};
ghost use Rattle.graph_conf.specs.KindNames.{kind_word};
ghost use Rattle.nd_base.specs.GraphRules.{is_name_byte, is_node_name};
ghost use Rattle.graph_conf.specs.Graphs.{feeds};
ghost use Rattle.graph_conf.specs.Nodes.{kinds, sample_types, modes, keys_of};

use crate::kind::KindName;
use nd_base::{Mode, SampleType};
use toml::Table;

/// The kind of node that a word names.
pub(crate) fn kind_named(word: &str) -> Option<KindName>
    ensures { option_map kind_word result ≡ meaning_in kinds word.now }
{
    match word {
        "roi" => Some(KindName::Roi),
        "stats" => Some(KindName::Stats),
        "circular" => Some(KindName::Circular),
        "file" => Some(KindName::File),
        "scatter" => Some(KindName::Scatter),
        _ => None,
    }
}

/// The sample type that a word names, or None where it names none.
pub fn sample_type_named(word: &str) -> Option<SampleType>
    ensures { result ≡ meaning_in sample_types word.now }
{
    match word {
        "Int8" => Some(SampleType::Int8),
        "UInt8" => Some(SampleType::UInt8),
        "Int16" => Some(SampleType::Int16),
        "UInt16" => Some(SampleType::UInt16),
        "Int32" => Some(SampleType::Int32),
        "UInt32" => Some(SampleType::UInt32),
        _ => None,
    }
}

/// The way of grouping arrays into files that a word names.
pub(crate) fn mode_named(word: &str) -> Option<Mode>
    ensures { result ≡ meaning_in modes word.now }
{
    match word {
        "single" => Some(Mode::Single),
        "capture" => Some(Mode::Capture),
        "stream" => Some(Mode::Stream),
        _ => None,
    }
}

/// Whether the feed waits.
pub(crate) fn feed_named(word: &str) -> Option<bool>
    ensures { result ≡ meaning_in feeds word.now }
{
    match word {
        "free" => Some(false),
        "wait" => Some(true),
        _ => None,
    }
}

/// The keys that the table of a node of this kind may have.
pub(crate) fn keys_of(kind: KindName) -> &'static [&'static str]
    ensures { map (λ k. k.now) result.now ≡ keys_of (kind_word kind) }
{
    match kind {
        KindName::Roi => &[
            "name",
            "kind",
            "input",
            "queue",
            "threads",
            "sort",
            "sort_time",
            "min",
            "size",
            "bin",
            "reverse",
            "auto",
            "scale",
            "type",
        ],
        KindName::Stats => &[
            "name",
            "kind",
            "input",
            "queue",
            "threads",
            "sort",
            "sort_time",
            "threshold",
            "border",
            "hist_size",
            "hist_lo",
            "hist_hi",
            "profiles",
        ],
        KindName::Circular => &[
            "name", "kind", "input", "queue", "threads", "pre", "post", "preset", "trigger", "a",
            "b",
        ],
        KindName::File => &[
            "name", "kind", "input", "queue", "threads", "mode", "count", "cdf",
        ],
        KindName::Scatter => &["name", "kind", "input", "queue", "threads"],
    }
}

/// A letter and at most 31 letters, digits and underscores, and not the driver's name.
pub(crate) fn is_node_name(text: &str) -> bool
    ensures { result ≡ is_node_name text.now }
{
    let [first, rest @ ..] = text.as_bytes() else {
        return false;
    };
    let letters = are_name_bytes(rest);
    first.is_ascii_alphabetic() && letters && rest.len() <= 31 && text != "driver"
}

/// Whether each of the bytes may stand in a name.
fn are_name_bytes(bytes: &[u8]) -> bool
    ensures { result ≡ list_all is_name_byte bytes.now }
{
    bytes.iter().all(|byte| is_name_byte(*byte))
}

/// Whether a byte may stand in a name: a letter, a digit or an underscore.
fn is_name_byte(byte: u8) -> bool
    ensures { result ≡ is_name_byte byte }
{
    byte.is_ascii_alphabetic() || byte.is_ascii_digit() || byte == b'_'
}

/// The key is one of these.
fn is_known(known: &[&str], key: &str) -> bool
    ensures { result ≡ list_any (λ k. bytes_eq key.now k.now) known.now }
{
    known.iter().any(|k| key == *k)
}

/// The first of the table's keys that isn't one of these.
pub(crate) fn first_unknown<'a>(table: &'a Table, known: &[&str]) -> Option<&'a str>
    ensures { option_map (λ key. key.now) result ≡ first_unknown (map (λ k. k.now) known.now) (table_view table.now) }
{
    for (key, _) in table.iter() {
        if !is_known(known, key) {
            return Some(key);
        }
    }
    None
}
