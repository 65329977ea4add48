//! The rules of all paths of a graph.
ghost use Rattle.std.specs.Prelude.{◌≡◌, ◌≤◌, ◌<◌, ◌^◌, ◌-◌, ◌+◌, All, length, IfOk};
ghost use Rattle.descent.specs.Conditions.{AreRules};
ghost use Rattle.path_rules.specs.Answers.{Answers};
ghost use Rattle.path_rules.specs.inner.Building.{AreRulesOr, IsRuleOfNumber};
ghost use Rattle.path_rules.specs.inner.Sizing.{sized_graph};
ghost use Rattle.path_rules.specs.Conditions.{IsReady};
ghost use Rattle.path_rules.specs.Limits.{most_paths};
ghost use Rattle.path_rules.specs.inner.Ways.{paths_of, AreWaysOf, IsMapped, IsRanked};

use crate::counts::{TOO_MANY, counts};
use crate::fault::PathFault;
use crate::limits::MOST_ROWS;
use crate::successors::{cut_marks, inner_lists, successor_lists};
use crate::walks::rule_along;
use crate::ways::{Ways, way_of};
use abs_cells::Pairs;
use abs_reach::Marks;
use descent::PathRule;
use list_views::Seq;
use number_graphs::{Ranking, rank};
use std::alloc::{AllocError, Global};
use term_graph::{Links, NodeSource};

/// Ranks that fall along all edges, or the least node on a cycle.
fn ranked(alloc: Global, inner: &[Seq<u32>]) -> Result<Seq<u32>, PathFault>
    requires { length inner.now + 1 < 2 ^ 32 }
    ensures { IsRanked inner.now result }
{
    match rank(alloc, inner)? {
        Ranking::Cycle(node) => Err(PathFault::Uncut { node }),
        Ranking::Ranks(ranks) => Ok(ranks),
    }
}

/// What is kept of a graph in which every cycle has a cut.
#[tactic(auto, using(crate::proofs::Answering::inner_short, crate::proofs::Answering::cuts_there, crate::proofs::Answering::inner_falls, crate::proofs::Answering::fault_mapped, crate::proofs::Answering::ways_made))]
fn mapped<P: Pairs, S: NodeSource<P>>(
    alloc: Global,
    source: &mut S,
    cuts: &[u32],
) -> Result<Ways, PathFault>
    requires cuts { All (λ cut. cut < length (S.graph source.old)) cuts.now }
    requires few { length (S.graph source.old) ≤ 2 ^ 32 - 16 }
    ensures mapped { IsMapped (S.graph source.old) cuts.now result }
    ensures same { S.graph source.new ≡ S.graph source.old }
{
    let lists = successor_lists(alloc, source)?;
    let marks = cut_marks(alloc, lists.len(), cuts)?;
    let inner = inner_lists(alloc, marks.as_slice(), lists.as_slice())?;
    let ranks = ranked(alloc, inner.as_slice())?;
    let counts = counts(alloc, lists.as_slice(), marks.as_slice(), ranks.as_slice())?;
    Ok(Ways {
        lists,
        marks,
        ranks,
        counts,
    })
}

/// The rule of the path of a number, or none where it has too many rows.
#[tactic(auto, using(crate::proofs::Ruling::path_found, crate::proofs::Ruling::path_not_found, crate::proofs::Ruling::cut_there, crate::proofs::Ruling::way_rides, crate::proofs::Ruling::rule_for, crate::proofs::Ruling::good))]
fn rule_of<P: Pairs, S: NodeSource<P>>(
    alloc: Global,
    source: &mut S,
    links: &Links,
    cuts: &[u32],
    ways: &Ways,
    number: u32,
    marks: &mut Marks,
) -> Result<Option<PathRule>, AllocError>
    requires ready { IsReady (S.graph source.old) links.now.nodes cuts.now }
    requires mapped { AreWaysOf (S.graph source.old) cuts.now ways.now }
    requires there { number < length (paths_of ways.now cuts.now) }
    requires few { number < most_paths + 1 }
    ensures rule { IfOk result
        (IsRuleOfNumber (sized_graph (S.graph source.old) links.now.nodes) cuts.now (paths_of ways.now cuts.now) number) }
    ensures same { S.graph source.new ≡ S.graph source.old }
{
    let Some((_place, from, left)) = ways.start(cuts, number) else {
        return Ok(None);
    };
    let way = way_of(alloc, ways, from, left)?;
    let rule = rule_along(alloc, source, links, from, &way, marks)?;
    Ok(rule)
}

/// The rules of all paths, of which there are `count`.
#[tactic(auto, using(crate::proofs::Ruling::none_so_far, crate::proofs::Ruling::one_more, crate::proofs::Ruling::all_done, crate::proofs::Ruling::all_fit, crate::proofs::Ruling::one_too_long, crate::proofs::Ruling::all_too_long))]
fn rules_of<P: Pairs, S: NodeSource<P>>(
    alloc: Global,
    source: &mut S,
    links: &Links,
    cuts: &[u32],
    ways: &Ways,
    count: u32,
) -> Result<Seq<PathRule>, PathFault>
    requires ready { IsReady (S.graph source.old) links.now.nodes cuts.now }
    requires mapped { AreWaysOf (S.graph source.old) cuts.now ways.now }
    requires all { count ≡ length (paths_of ways.now cuts.now) }
    requires few { count ≤ most_paths }
    ensures rules { AreRulesOr (S.graph source.old) links.now.nodes cuts.now result }
    ensures fit { IfOk result AreRules }
    ensures same { S.graph source.new ≡ S.graph source.old }
{
    let mut marks = Marks::new(alloc)?;
    let mut rules = Seq::new(alloc);
    let mut rows: u64 = 0;
    for path in 0..count {
        let Some(rule) = rule_of(alloc, source, links, cuts, ways, path, &mut marks)? else {
            return Err(PathFault::TooManyRows { path });
        };
        rows += rule.rows.len() as u64;
        if rows > MOST_ROWS {
            return Err(PathFault::TooManyRows { path });
        }
        rules.push(rule)?;
    }
    Ok(rules)
}

/// The rules of all paths of a graph in which every cycle has a cut.
#[tactic(auto, using(crate::proofs::Ruling::all_counted))]
fn answered<P: Pairs, S: NodeSource<P>>(
    alloc: Global,
    source: &mut S,
    links: &Links,
    cuts: &[u32],
    ways: &Ways,
) -> Result<Seq<PathRule>, PathFault>
    requires ready { IsReady (S.graph source.old) links.now.nodes cuts.now }
    requires mapped { AreWaysOf (S.graph source.old) cuts.now ways.now }
    ensures answers { Answers (S.graph source.old) links.now.nodes cuts.now result }
    ensures fit { IfOk result AreRules }
    ensures same { S.graph source.new ≡ S.graph source.old }
{
    let count = ways.total(cuts);
    if count >= TOO_MANY {
        return Err(PathFault::TooManyPaths);
    }
    rules_of(alloc, source, links, cuts, ways, count)
}

/// The rules of all paths of a graph from cut to cut, in the order of the paths.
///
/// Paths go by the cut at which they start, and then by the numbers of their edges. Nodes are asked for one at a time.
///
/// # Errors
///
/// The least node on a cycle without a cut; more than 4,096 paths; the first path whose rule has more than 65,536 rows, or with whose
/// rule the rules have more than 16,777,216 rows together; want of memory.
#[tactic(auto, using(crate::proofs::Answering::fault_answers))]
pub fn paths<P: Pairs, S: NodeSource<P>>(
    alloc: Global,
    source: &mut S,
    links: &Links,
    cuts: &[u32],
) -> Result<Seq<PathRule>, PathFault>
    requires ready { IsReady (S.graph source.old) links.now.nodes cuts.now }
    requires few { length (S.graph source.old) ≤ 2 ^ 32 - 16 }
    ensures answers { Answers (S.graph source.old) links.now.nodes cuts.now result }
    ensures fit { IfOk result AreRules }
    ensures same { S.graph source.new ≡ S.graph source.old }
{
    let ways = mapped(alloc, source, cuts)?;
    answered(alloc, source, links, cuts, &ways)
}
