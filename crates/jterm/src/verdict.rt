//! What is answered.
use abs_cells::PackedPairs;
use its_call::ItsFound;
use list_views::Seq;
use prove_core::Reason;

/// The answer of a command whose input is not refused.
#[derive(Drop)]
pub struct Verdict {
    /// The exit status.
    pub status: u8,
    /// The bytes for the output.
    pub out: Seq<u8>,
    /// Why no certificate is given, where none is found.
    pub reason: Option<Reason<PackedPairs>>,
    /// What `its` leaves, where it gives no proof.
    pub its: Option<ItsFound>,
}
