//! Certificates.
ghost use Rattle.std.specs.Prelude.{◌≡◌, ◌<◌, ◌≤◌, codes, length, Some, IfOk};
ghost use Rattle.json_view.specs.Located.{located};
ghost use Rattle.descent.specs.Conditions.{AreSteps};
ghost use Rattle.term_graph.specs.Graphs.{by_at, state_at};
ghost use Rattle.term_graph.specs.Limits.{most_nodes};
ghost use Rattle.cert_form.specs.Answers.{Says};
ghost use Rattle.cert_form.specs.Fields.{field};
ghost use Rattle.cert_form.specs.Ways.{numbers_of};
ghost use Rattle.cert_form.specs.Steps.{proof_of};
ghost use Rattle.cert_form.specs.Certificates.{form_of, cert_of, kept, AnswersText, LackingAreNamed};

use crate::fault::CertFault;
use crate::names::ClassNames;
use crate::nodes::{by_of_node, nodes_field, state_of_node};
use crate::steps::proof;
use crate::values::{field, only, whole};
use crate::ways::numbers;
use abs_cells::{AbsState, Pairs};
use descent::{Proof, ProofStep};
use json_view::{View, parse};
use list_views::Seq;
use serde_json::Value;
use std::alloc::{AllocError, Global};
use std::marker::Model;
use term_graph::{By, PartSource};

/// What is kept of a certificate beside its value.
#[derive(Drop)]
struct Kept {
    /// The cuts.
    cuts: Seq<u32>,
    /// The number of nodes.
    count: u32,
    /// The proof.
    proof: Seq<ProofStep>,
}

/// Whether a certificate is of form 2.
#[tactic(auto, unfolding(crate::specs::Certificates::form_of))]
fn form(alloc: Global, view: &View<'_, '_>) -> Result<bool, CertFault>
    ensures { Says result (form_of (located view.now)) }
{
    let form = whole(alloc, view, 1, 2)?;
    Ok(form == 2)
}

/// Whether a certificate is of form 2, by its field `form`.
#[tactic(auto, unfolding(crate::specs::Fields::field))]
fn form_field(alloc: Global, view: &View<'_, '_>) -> Result<bool, CertFault>
    ensures { Says result (field (codes "form") form_of (located view.now)) }
{
    let field = field(alloc, view, "form")?;
    form(alloc, &field)
}

/// The cuts.
#[tactic(auto, unfolding(crate::specs::Fields::field))]
fn cuts_field(alloc: Global, view: &View<'_, '_>) -> Result<Seq<u32>, CertFault>
    ensures { Says result (field (codes "cuts") numbers_of (located view.now)) }
{
    let field = field(alloc, view, "cuts")?;
    numbers(alloc, &field)
}

/// The steps of the proof.
#[tactic(auto, unfolding(crate::specs::Fields::field))]
fn proof_field(alloc: Global, view: &View<'_, '_>) -> Result<Seq<ProofStep>, CertFault>
    ensures { Says result (field (codes "proof") proof_of (located view.now)) }
{
    let field = field(alloc, view, "proof")?;
    proof(alloc, &field)
}

/// What a whole value says.
#[tactic(auto, unfolding(crate::specs::Certificates::cert_of, crate::specs::Fields::only))]
fn read_value(alloc: Global, names: &ClassNames, view: &View<'_, '_>) -> Result<Kept, CertFault>
    ensures { Says result (kept (cert_of names.now (located view.now))) }
{
    only(alloc, view, "cuts form nodes proof")?;
    let second = form_field(alloc, view)?;
    let cuts = cuts_field(alloc, view)?;
    let count = nodes_field(alloc, names, second, view)?;
    let proof = proof_field(alloc, view)?;
    Ok(Kept { cuts, count, proof })
}

/// A certificate: its value with what it says beside its nodes, which are read of the value one at a time. It is seen as its
/// content.
#[derive(Drop)]
pub struct CertText<'a> {
    value: Value,
    names: &'a ClassNames,
    count: u32,
    cuts: Seq<u32>,
    proof: Proof,
}

impl<'a> Model for CertText<'a> {
    ghost use Rattle.std.specs.Prelude.{◌≡◌, length, Ok};
    ghost use Rattle.serde_json.specs.View.{view as value_of};
    ghost use Rattle.json_view.specs.Located.{root_of};
    ghost use Rattle.cert_form.specs.Certificates.{CertContent, cert_of, parts_or_none};

    ghost Value = { CertContent };

    ghost view = { λ text. record {
      cuts = text.cuts;
      parts = parts_or_none (cert_of text.names.now (root_of (value_of text.value)));
      proof = text.proof.steps;
    } };

    ghost invariant = { λ text.
        (cert_of text.names.now (root_of (value_of text.value)) ≡ Ok (record {
          cuts = text.cuts;
          parts = parts_or_none (cert_of text.names.now (root_of (value_of text.value)));
          proof = text.proof.steps;
        }))
        × (text.count ≡ length (parts_or_none (cert_of text.names.now (root_of (value_of text.value))))) };
}

impl<'a> CertText<'a> {
    /// The certificate that the bytes say, its types read by the names of a world's classes.
    ///
    /// # Errors
    ///
    /// `Json` with the first fault: the bytes are no JSON that `serde_json` reads; or, in the order of the fields, a value is
    /// of another kind, out of range, out of order, missing or not listed. `Limit` where a number or a list that comes first
    /// passes a limit. Want of memory.
    pub fn read(
        alloc: Global,
        bytes: &[u8],
        names: &'a ClassNames,
    ) -> Result<CertText<'a>, CertFault>
        ensures answer { AnswersText (cert_of names.now) bytes.now result }
        ensures named { IfOk result (λ text. LackingAreNamed text.parts) }
        ensures few { IfOk result (λ text. length text.parts ≤ most_nodes) }
        ensures steps { IfOk result (λ text. AreSteps text.proof) }
    {
        let value = parse(alloc, bytes)?;
        match read_value(alloc, names, &View::root(&value)) {
            Ok(Kept { cuts, count, proof }) => Ok(CertText {
                value,
                names,
                count,
                cuts,
                proof: Proof { steps: proof },
            }),
            Err(fault) => Err(fault),
        }
    }

    /// The cuts.
    pub fn cuts(&self) -> &[u32]
        ensures { result.now ≡ self.now.cuts }
    {
        self.cuts.as_slice()
    }

    /// The proof.
    pub fn proof(&self) -> &Proof
        ensures { result.now.steps ≡ self.now.proof }
    {
        &self.proof
    }

    /// The number of nodes.
    fn count(&self) -> u32
        ensures { result ≡ length self.now.parts }
    {
        self.count
    }

    /// How a node is left.
    fn by(&self, alloc: Global, n: u32) -> Result<By, AllocError>
        requires { n < length self.now.parts }
        ensures { IfOk result (λ by. by_at self.now.parts n ≡ Some by) }
    {
        match by_of_node(alloc, n as usize, &View::root(&self.value)) {
            Ok(by) => Ok(by),
            Err(_) => Err(AllocError),
        }
    }

    /// The state of a node, if it has one.
    fn state<P: Pairs>(&self, alloc: Global, n: u32) -> Result<Option<AbsState<P>>, AllocError>
        requires { n < length self.now.parts }
        ensures { IfOk result (λ state. state_at self.now.parts n ≡ Some state) }
    {
        match state_of_node(alloc, self.names, n as usize, &View::root(&self.value)) {
            Ok(Some(parts)) => Ok(Some(parts.into_state(alloc)?)),
            Ok(None) => Ok(None),
            Err(_) => Err(AllocError),
        }
    }
}

impl<P: Pairs> PartSource<P> for CertText<'_> {
    ghost parts = { λ text. text.parts };

    fn count(&self) -> u32 {
        CertText::count(self)
    }

    fn by(&self, alloc: Global, n: u32) -> Result<By, AllocError> {
        CertText::by(self, alloc, n)
    }

    fn state(&self, alloc: Global, n: u32) -> Result<Option<AbsState<P>>, AllocError> {
        CertText::state(self, alloc, n)
    }
}
