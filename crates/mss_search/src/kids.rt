//! The lines of new prefixes, and their entries in the queue.
ghost use Rattle.std.specs.Prelude.{◌≡◌, ℕ, ◌+◌, ◌<◌, ◌≤◌, ◌^◌, [], ◌∷◌, ◌++◌, length, IfOk};
ghost use Rattle.std.specs.List.{All};
ghost use Rattle.mss_model.specs.TableWords.{slot_count, option_count};
ghost use Rattle.mss_model.specs.PartsOf.{parts_of};
ghost use Rattle.mss_floor.specs.FlooredLists.{floored_census};
ghost use Rattle.mss_bounds.specs.BounderView.{IsBounderOf};
ghost use Rattle.mss_bounds.specs.Children.{IsIdleChild, idle_sibling};
ghost use Rattle.mss_bounds.specs.PrefixBound.{bound_of};
ghost use Rattle.mss_cert.specs.declared.certificate.Line.TheVariants.{Dead, OpenAt};
ghost use Rattle.mss_search.specs.Kids.{fresh_line, kid_lines, HasKids};

use crate::queue::{Queue, Waiting};
use mss_bounds::{Bounder, IdleChild};
use mss_cert::Line;
use mss_enclose::{Enclosure, Kernel};
use mss_model::{NoMemory, Tables};
use mss_pctl::FirstLargest;
use mss_rules::Rules;
use std::alloc::Global;

/// The line of a prefix when it is made: dead by a rule, or open with its bound.
pub(crate) fn fresh_line<E: Enclosure, K: Kernel, R: Rules>(
    tables: &Tables,
    kernel: &K,
    rules: &R,
    bounder: &mut Bounder<E>,
    prefix: &[u8],
) -> Line
    requires tables { IsBounderOf (parts_of tables.now) bounder.old }
    requires long { length prefix.now ≤ slot_count (parts_of tables.now) }
    requires options { All (λ option. option < option_count (parts_of tables.now)) prefix.now }
    ensures line { result ≡ fresh_line (R.rule (parts_of tables.now)) (bound_of (floored_census E.joined) E.low_of (parts_of tables.now)) prefix.now }
    ensures bounder { IsBounderOf (parts_of tables.now) bounder.new }
{
    match rules.dead(tables, prefix) {
        Some(rule) => dead_line(rule),
        None => open_line(bounder.bound(kernel, tables, prefix)),
    }
}

/// The same of a prefix with a last option, where the prefix that is idle there is known.
fn kid_line<E: Enclosure, K: Kernel, R: Rules>(
    tables: &Tables,
    kernel: &K,
    rules: &R,
    bounder: &mut Bounder<E>,
    child: &[u8],
    idle: &IdleChild,
) -> Line
    requires tables { IsBounderOf (parts_of tables.now) bounder.old }
    requires some { 0 < length child.now }
    requires long { length child.now ≤ slot_count (parts_of tables.now) }
    requires options { All (λ option. option < option_count (parts_of tables.now)) child.now }
    requires idle { IsIdleChild (floored_census E.joined) E.low_of (parts_of tables.now) (idle_sibling child.now) idle.now }
    ensures line { result ≡ fresh_line (R.rule (parts_of tables.now)) (bound_of (floored_census E.joined) E.low_of (parts_of tables.now)) child.now }
    ensures bounder { IsBounderOf (parts_of tables.now) bounder.new }
{
    match rules.dead(tables, child) {
        Some(rule) => dead_line(rule),
        None => open_line(bounder.child_bound(kernel, tables, child, idle)),
    }
}

/// The line of a prefix that is dead by a rule.
fn dead_line(rule: u8) -> Line
    ensures { result ≡ Dead rule }
{
    Line::Dead {
        rule: u32::from(rule),
    }
}

/// The line of an open prefix with its bound.
fn open_line(bound: FirstLargest) -> Line
    ensures { result ≡ OpenAt bound.number bound.ward bound.day }
{
    Line::OpenAt {
        number: bound.number,
        ward: u32::from(bound.ward),
        day: u32::from(bound.day),
    }
}

/// A prefix and one option more.
fn child_of(alloc: Global, prefix: &[u8], option: u8) -> Result<Vec<u8>, NoMemory>
    ensures { IfOk result (λ v. v.items ≡ prefix.now ++ option ∷ []) }
{
    let mut child = Vec::with_capacity(alloc, prefix.len() + 1)?;
    child.extend_from_slice(prefix)?;
    child.push(option)?;
    Ok(child)
}

/// The lines of the children of a prefix that isn't full, in the order of options.
pub(crate) fn kid_lines<E: Enclosure, K: Kernel, R: Rules>(
    alloc: Global,
    tables: &Tables,
    kernel: &K,
    rules: &R,
    bounder: &mut Bounder<E>,
    prefix: &[u8],
) -> Result<Vec<Line>, NoMemory>
    requires tables { IsBounderOf (parts_of tables.now) bounder.old }
    requires short { length prefix.now < slot_count (parts_of tables.now) }
    requires options { All (λ option. option < option_count (parts_of tables.now)) prefix.now }
    ensures lines { IfOk result (λ v. v.items ≡ kid_lines (R.rule (parts_of tables.now)) (bound_of (floored_census E.joined) E.low_of (parts_of tables.now)) (option_count (parts_of tables.now)) prefix.now) }
    ensures bounder { IsBounderOf (parts_of tables.now) bounder.new }
{
    let first = child_of(alloc, prefix, 0)?;
    let idle = bounder.idle_child(kernel, tables, first.as_slice());
    let mut lines = Vec::with_capacity(alloc, usize::from(tables.specialties()) + 1)?;
    for option in 0..tables.specialties() + 1 {
        let child = child_of(alloc, prefix, option)?;
        lines.push(kid_line(tables, kernel, rules, bounder, child.as_slice(), &idle))?;
    }
    Ok(lines)
}

/// Puts an entry into the queue for each open line among those of the children of a prefix, whose nodes are those from
/// the first on.
pub(crate) fn push_kids(
    alloc: Global,
    queue: &mut Queue,
    left: u32,
    prefix: &[u8],
    first: u32,
    lines: &[Line],
) -> Result<(), NoMemory>
    requires few { length lines.now < 2 ^ 8 }
    requires small { first + length lines.now < 2 ^ 32 }
    ensures { IfOk result (λ _. HasKids left first prefix.now lines.now (length lines.now) queue.old queue.new) }
{
    for i in 0..lines.len() {
        if let Line::OpenAt { number, ward, day } = lines[i] {
            let options = child_of(alloc, prefix, i as u8)?;
            queue.push(Waiting {
                left,
                number,
                options,
                ward,
                day,
                node: first + i as u32,
            })?;
        }
    }
    Ok(())
}
