//! The version, and the keys that version 1 hasn't.
ghost use Rattle.std.specs.Prelude.{◌≡◌, IfOk, IfSome, None, Some, MatchResult};
ghost use Rattle.toml.specs.View.{table_view};
ghost use Rattle.mss_model.specs.BlockAtAge.{IsParts};
ghost use Rattle.mss_settings.specs.Faults.{allow_fits, is_version_1, parts_fit, parts_of, version_fault};
ghost use Rattle.mss_settings.specs.Meaning.{Refuses};
ghost use Rattle.mss_settings.specs.Table.{as_parts};

use crate::keys::{holds_integer, holds_integers};
use crate::lookup::{has_key, integer_at, number_at};
use crate::refusal::{SettingsRefusal, refuse};
use mss_model::{Kind, PARTS, is_parts};
use toml::Table;

/// Whether the version is 1.
fn is_version_1(table: &Table) -> bool
    ensures { result ≡ is_version_1 (table_view table.now) }
{
    number_at(table, "version", 1, 1).is_some()
}

/// Whether the parts are there as the version has them.
fn parts_fit(table: &Table) -> bool
    ensures { result ≡ parts_fit (table_view table.now) }
{
    if is_version_1(table) {
        !has_key(table, "parts")
    } else {
        holds_integer(table, "parts")
    }
}

/// Whether the allowances are there only as the version has them.
fn allow_fits(table: &Table) -> bool
    ensures { result ≡ allow_fits (table_view table.now) }
{
    if has_key(table, "allow") {
        !is_version_1(table) && holds_integers(table, "allow")
    } else {
        true
    }
}

/// An integer as the parts of each chance, where it is one of the two numbers.
fn as_parts(value: i64) -> Option<u32>
    ensures value { result ≡ as_parts value }
    ensures known { IfSome result IsParts }
{
    match u32::try_from(value) {
        Ok(parts) if is_parts(parts) => Some(parts),
        _ => None,
    }
}

/// The parts of each chance, where they are one of the two numbers.
fn parts_of(table: &Table) -> Option<u32>
    ensures value { result ≡ parts_of (table_view table.now) }
    ensures known { IfSome result IsParts }
{
    if is_version_1(table) {
        return Some(PARTS);
    }
    match integer_at(table, "parts") {
        Some(value) => as_parts(value),
        None => None,
    }
}

/// The parts of each chance, where the version and its keys have no fault.
#[tactic(auto, unfolding(crate::specs::Faults::version_fault))]
pub(crate) fn read_parts(table: &Table) -> Result<u32, SettingsRefusal>
    ensures exact { let t = table_view table.now in MatchResult result (λ parts. (version_fault t ≡ None) × (parts_of t ≡ Some parts)) (Refuses (version_fault t)) }
    ensures known { IfOk result IsParts }
{
    let Some(_version) = number_at(table, "version", 1, 2) else {
        return Err(refuse(1, Kind::Version));
    };
    if !parts_fit(table) {
        return Err(refuse(7, Kind::Key));
    }
    if !allow_fits(table) {
        return Err(refuse(8, Kind::Key));
    }
    match parts_of(table) {
        Some(parts) => Ok(parts),
        None => Err(refuse(7, Kind::Range)),
    }
}
