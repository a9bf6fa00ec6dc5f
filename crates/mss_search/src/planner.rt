//! The search.
ghost use Rattle.std.specs.Prelude.{◌≡◌, ◌↔◌, ℕ, ◌+◌, ◌*◌, ◌-◌, ◌^◌, ◌<◌, ◌≤◌, true, false, IsTrue, List, [], ◌∷◌, length, vec_len, IfOk, Option, Some, None, option_map};
ghost use Rattle.mss_model.specs.Peak.{peak_at, peak_below, peak_above};
ghost use Rattle.mss_model.specs.PartsOf.{parts_of};
ghost use Rattle.mss_model.specs.TableWords.{option_count};
ghost use Rattle.mss_floor.specs.FlooredLists.{floored_census};
ghost use Rattle.mss_bounds.specs.BounderView.{IsBounderOf};
ghost use Rattle.mss_bounds.specs.PrefixBound.{bound_of};
ghost use Rattle.mss_cert.specs.declared.certificate.End.TheVariants.{Lower, NoneLegal};
ghost use Rattle.mss_check.specs.Tree.{number_of, lesser, least_number, end_of};
ghost use Rattle.mss_check.specs.Tasks.{task_of};
ghost use Rattle.mss_check.specs.Validity.{IsValidFor};
ghost use Rattle.mss_search.specs.Frugal.{In};
ghost use Rattle.mss_search.specs.Order.{order_of};
ghost use Rattle.mss_search.specs.Plan.{IsFrugal};
ghost use Rattle.mss_search.specs.Searching.{upper_of, IsSearchOf};
ghost use Rattle.mss_search.specs.Promises.{IsPlanOf, IsIncumbent, HasOpen, Reaches, IsTight};

use crate::kids::fresh_line;
use crate::queue::{Queue, Waiting};
use crate::search::{Best, Search};
use crate::table::{Node, lines};
use crate::turns::turn;
use mss_bounds::Bounder;
use mss_census::Census;
use mss_cert::{Certificate, End, Line, Lines};
use mss_enclose::{Enclosure, Kernel, Masses};
use mss_model::{Cycle, NoMemory, Tables};
use mss_rules::Rules;
use std::alloc::Global;

/// What a search found.
#[derive(Debug, Drop)]
pub struct Planned {
    pub certificate: Certificate,
    /// The cycle with the least upper number.
    pub best: Option<Cycle>,
    pub upper: Option<u32>,
    pub turns: u32,
    /// Whether a prefix was still open when the budget was spent.
    pub spent: bool,
}

/// The search over the cycles that the rules admit, with bounds from a kind of list.
pub fn plan<E: Enclosure, K: Kernel, R: Rules>(
    alloc: Global,
    tables: &Tables,
    kernel: &K,
    rules: &R,
) -> Result<Planned, NoMemory>
    ensures version { IfOk result (λ p. p.certificate.version ≡ 2) }
    ensures valid { IfOk result (λ p. IsValidFor (task_of R.rule (floored_census E.joined) E.low_of (parts_of tables.now)) (parts_of tables.now) p.certificate) }
    ensures frugal { IfOk result (λ p. IsFrugal (task_of R.rule (floored_census E.joined) E.low_of (parts_of tables.now)) (bound_of (floored_census E.joined) E.low_of (parts_of tables.now)) (upper_of (parts_of tables.now)) (parts_of tables.now).budget p.certificate.tree p.turns) }
    ensures best { IfOk result (λ p. IsIncumbent (task_of R.rule (floored_census E.joined) E.low_of (parts_of tables.now)) (upper_of (parts_of tables.now)) p.certificate.tree p.best p.upper) }
    ensures spent { IfOk result (λ p. IsTrue p.spent ↔ HasOpen (task_of R.rule (floored_census E.joined) E.low_of (parts_of tables.now)) p.certificate.tree) }
    ensures few { IfOk result (λ p. length p.certificate.tree ≤ 1 + option_count (parts_of tables.now) * p.turns) }
    ensures member { IfOk result (λ p. (cycle : List ℕ) → p.best ≡ Some cycle → R.Member (parts_of tables.now) cycle) }
    ensures peaks { IfOk result (λ p. (cycle : List ℕ) (n : ℕ) → p.best ≡ Some cycle → p.upper ≡ Some n → peak_at (parts_of tables.now) cycle (parts_of tables.now).level ≤ n) }
    ensures lower { IfOk result (λ p. (n : ℕ) → p.certificate.end ≡ Lower n → (cycle : List ℕ) → R.Member (parts_of tables.now) cycle → n ≤ peak_at (parts_of tables.now) cycle (parts_of tables.now).level) }
    ensures none { IfOk result (λ p. p.certificate.end ≡ NoneLegal → (cycle : List ℕ) → R.Member (parts_of tables.now) cycle → ⊥) }
    ensures closes { IfOk result (λ p. p.spent ≡ false → (n : ℕ) → p.upper ≡ Some n → (cycle : List ℕ) → R.Member (parts_of tables.now) cycle
        → n ≤ peak_above (parts_of tables.now) cycle (parts_of tables.now).level) }
    ensures reaches { IfOk result (λ p. p.spent ≡ false → (n : ℕ) → p.upper ≡ Some n → Reaches p.certificate n) }
    ensures tight { IfOk result (λ p. IsTight (task_of R.rule (floored_census E.joined) E.low_of (parts_of tables.now)) p.certificate.tree
        (λ prefix. peak_below (parts_of tables.now) prefix (parts_of tables.now).level)) }
{
    let search = searched::<E, K, R>(alloc, tables, kernel, rules)?;
    finish(alloc, tables, search)
}

/// All turns of the search.
fn searched<E: Enclosure, K: Kernel, R: Rules>(
    alloc: Global,
    tables: &Tables,
    kernel: &K,
    rules: &R,
) -> Result<Search, NoMemory>
    ensures search { IfOk result (λ s. IsSearchOf R.rule (floored_census E.joined) E.low_of (parts_of tables.now) s.nodes.items s.queue s.best s.turns) }
    ensures within { IfOk result (λ s. s.turns ≤ (parts_of tables.now).budget) }
    ensures spent { IfOk result (λ s. 0 < length s.queue → s.turns ≡ (parts_of tables.now).budget) }
{
    let mut bounder = Bounder::<E>::make(alloc, kernel, tables)?;
    let mut census = Census::<Masses>::make(alloc, kernel, tables)?;
    let mut search = start(alloc, tables, kernel, rules, &mut bounder)?;
    while search.turns < tables.budget() && !search.queue.is_empty() {
        turn(
            alloc,
            tables,
            kernel,
            rules,
            &mut bounder,
            &mut census,
            &mut search,
        )?;
    }
    Ok(search)
}

/// The search before its first turn: the empty prefix alone.
fn start<E: Enclosure, K: Kernel, R: Rules>(
    alloc: Global,
    tables: &Tables,
    kernel: &K,
    rules: &R,
    bounder: &mut Bounder<E>,
) -> Result<Search, NoMemory>
    requires { IsBounderOf (parts_of tables.now) bounder.old }
    ensures search { IfOk result (λ s. IsSearchOf R.rule (floored_census E.joined) E.low_of (parts_of tables.now) s.nodes.items s.queue s.best s.turns) }
    ensures turns { IfOk result (λ s. s.turns ≡ 0) }
    ensures bounder { IsBounderOf (parts_of tables.now) bounder.new }
{
    let options: Vec<u8> = Vec::new(alloc);
    let line = fresh_line(tables, kernel, rules, bounder, options.as_slice());
    let mut nodes = Vec::new(alloc);
    nodes.push(Node { next: 0, line })?;
    let mut queue = Queue::make(alloc);
    if let Line::OpenAt { number, ward, day } = line {
        queue.push(Waiting {
            left: tables.slots(),
            number,
            options,
            ward,
            day,
            node: 0,
        })?;
    }
    Ok(Search {
        nodes,
        queue,
        best: None,
        turns: 0,
    })
}

/// What the search found in the end.
fn finish(alloc: Global, tables: &Tables, search: Search) -> Result<Planned, NoMemory>
    requires inside { (k : ℕ) → In k (order_of search.nodes.items (length search.nodes.items)) → k < length search.nodes.items }
    requires few { length search.nodes.items < 2 ^ 31 }
    ensures { IfOk result (IsPlanOf (parts_of tables.now) search.nodes.items search.queue search.best search.turns) }
{
    let Search {
        nodes,
        queue,
        best,
        turns,
    } = search;
    let tree = lines(alloc, nodes.as_slice())?;
    let end = end_of(&tree);
    let spent = !queue.is_empty();
    let (best, upper) = parts_of_best(best);
    Ok(Planned {
        certificate: Certificate {
            version: 2,
            slots: tables.slots(),
            options: u32::from(tables.specialties()) + 1,
            level: tables.level(),
            tree,
            end,
        },
        best,
        upper,
        turns,
        spent,
    })
}

/// The cycle and its upper number, where there is one.
fn parts_of_best(best: Option<Best>) -> (Option<Cycle>, Option<u32>)
    ensures cycle { result.0 ≡ option_map (λ b. b.cycle) best }
    ensures number { result.1 ≡ option_map (λ b. b.upper) best }
{
    match best {
        None => (None, None),
        Some(best) => (Some(best.cycle), Some(best.upper)),
    }
}

/// The end that a tree wants: the least number on its lines.
fn end_of(tree: &Lines) -> End
    ensures { result ≡ end_of (least_number tree.now) }
{
    let mut least: Option<u32> = None;
    for place in 0..tree.len() {
        least = lesser_of(least, tree.get(place));
    }
    match least {
        Some(number) => End::Lower { number },
        None => End::NoneLegal,
    }
}

/// What the line's number makes of the least one so far.
fn lesser_of(least: Option<u32>, line: Line) -> Option<u32>
    ensures { result ≡ lesser least (number_of line) }
{
    let number = match line {
        Line::Branch { .. } | Line::Dead { .. } => return least,
        Line::Full { number, .. } | Line::Closed { number, .. } | Line::OpenAt { number, .. } => {
            number
        }
    };
    match least {
        None => Some(number),
        Some(other) => Some(if other < number { other } else { number }),
    }
}
