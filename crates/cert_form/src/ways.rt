//! How nodes are left.
ghost use Rattle.std.specs.Prelude.{◌≡◌, ◌<◌};
ghost use Rattle.json_view.specs.Located.{located};
ghost use Rattle.json_view.specs.Reading.{item_count};
ghost use Rattle.cert_form.specs.Answers.{Says};
ghost use Rattle.cert_form.specs.Fields.{nth, of_length};
ghost use Rattle.cert_form.specs.Ways.{way_length, numbers_of, map_of, expand_of, instance_of, way_of, by_of};

use crate::fault::CertFault;
use crate::lists::{Said, list};
use crate::numbers::nth_number;
use crate::states::two_ids;
use crate::values::{items, wrong};
use crate::words::{Word, word_in};
use abs_cells::Id;
use json_view::View;
use list_views::Seq;
use std::alloc::Global;
use term_graph::By;

/// The words of ways to leave a node.
#[derive(Clone, Copy, PartialEq, Eq)]
pub(crate) enum WayWord {
    /// One step, or a split into cases.
    Expand,
    /// Its state is an instance of another one.
    Instance,
    /// The run ends.
    End,
}

impl Word for WayWord {
    ghost use Rattle.cert_form.specs.Ways.{way_word};

    ghost means = { way_word };

    fn of(word: &str) -> Option<WayWord> {
        match word {
            "expand" => Some(WayWord::Expand),
            "instance" => Some(WayWord::Instance),
            "end" => Some(WayWord::End),
            _ => None,
        }
    }
}

impl WayWord {
    /// How many entries a list that begins with the word has.
    fn length(self) -> usize
        ensures { result ≡ way_length self }
    {
        match self {
            WayWord::Expand => 2,
            WayWord::Instance => 3,
            WayWord::End => 1,
        }
    }
}

/// A list of numbers.
#[tactic(auto, unfolding(crate::specs::Ways::numbers_of))]
pub(crate) fn numbers(alloc: Global, view: &View<'_, '_>) -> Result<Seq<u32>, CertFault>
    ensures { Says result (numbers_of (located view.now)) }
{
    list(alloc, &(), view)
}

/// Entry `n` of a list as a list of numbers.
#[tactic(auto, unfolding(crate::specs::Fields::nth))]
fn nth_numbers(alloc: Global, view: &View<'_, '_>, n: usize) -> Result<Seq<u32>, CertFault>
    requires { n < item_count (located view.now).value }
    ensures { Says result (nth n numbers_of (located view.now)) }
{
    numbers(alloc, &view.item(n))
}

impl Said<()> for (Id, Id) {
    ghost use Rattle.cert_form.specs.Ways.{map_entry};

    ghost reader = { λ _ _. map_entry };

    #[tactic(auto, unfolding(crate::specs::Ways::map_entry, crate::specs::Fields::of_length))]
    fn read(
        alloc: Global,
        _: &(),
        _: &[(Id, Id)],
        view: &View<'_, '_>,
    ) -> Result<(Id, Id), CertFault> {
        if items(alloc, view)? == 2 {
            two_ids(alloc, view)
        } else {
            wrong(alloc, view)
        }
    }
}

/// Entry `n` of a list as a map of ids.
#[tactic(auto, unfolding(crate::specs::Ways::map_of, crate::specs::Fields::nth))]
fn nth_map(alloc: Global, view: &View<'_, '_>, n: usize) -> Result<Seq<(Id, Id)>, CertFault>
    requires { n < item_count (located view.now).value }
    ensures { Says result (nth n map_of (located view.now)) }
{
    list(alloc, &(), &view.item(n))
}

/// What stands behind `expand`.
#[tactic(auto, unfolding(crate::specs::Ways::expand_of))]
fn expand(alloc: Global, view: &View<'_, '_>) -> Result<By, CertFault>
    requires { item_count (located view.now).value ≡ 2 }
    ensures { Says result (expand_of (located view.now)) }
{
    let children = nth_numbers(alloc, view, 1)?;
    Ok(By::Expand(children))
}

/// What stands behind `instance`.
#[tactic(auto, unfolding(crate::specs::Ways::instance_of))]
fn instance(alloc: Global, view: &View<'_, '_>) -> Result<By, CertFault>
    requires { item_count (located view.now).value ≡ 3 }
    ensures { Says result (instance_of (located view.now)) }
{
    let target = nth_number(alloc, view, 1)?;
    let map = nth_map(alloc, view, 2)?;
    Ok(By::Instance { target, map })
}

/// What stands behind the word.
fn way(alloc: Global, word: WayWord, view: &View<'_, '_>) -> Result<By, CertFault>
    requires { item_count (located view.now).value ≡ way_length word }
    ensures { Says result (way_of word (located view.now)) }
{
    match word {
        WayWord::Expand => expand(alloc, view),
        WayWord::Instance => instance(alloc, view),
        WayWord::End => Ok(By::End),
    }
}

/// How a node is left.
#[tactic(auto, unfolding(crate::specs::Ways::by_of, crate::specs::Fields::of_length))]
pub(crate) fn by(alloc: Global, view: &View<'_, '_>) -> Result<By, CertFault>
    ensures { Says result (by_of (located view.now)) }
{
    let word: WayWord = word_in(alloc, view, 0)?;
    if items(alloc, view)? == word.length() {
        way(alloc, word, view)
    } else {
        wrong(alloc, view)
    }
}
