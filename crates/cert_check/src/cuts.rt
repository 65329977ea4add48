//! Whether cuts are good.
ghost use Rattle.std.specs.Prelude.{◌≡◌, ◌↔◌, IsTrue, Some, slice_get};
ghost use Rattle.cert_check.specs.inner.PartChecks.{AreCutsFrom, AreCutsOf};

/// Whether the first cut is node 0.
fn begin_with_0(cuts: &[u32]) -> bool
    ensures { IsTrue result ↔ (slice_get cuts.now 0 ≡ Some 0) }
{
    match cuts.first() {
        Some(cut) => *cut == 0,
        None => false,
    }
}

/// Whether cuts rise and are below the number of nodes.
fn rise_below(nodes: u32, cuts: &[u32]) -> bool
    ensures { IsTrue result ↔ AreCutsFrom nodes 0 cuts.now }
{
    let mut low = 0u32;
    for cut in cuts {
        if *cut < low || *cut >= nodes {
            return false;
        }
        low = *cut + 1;
    }
    true
}

/// Whether cuts begin with node 0, rise, and are below the number of nodes.
pub(crate) fn are_cuts(nodes: u32, cuts: &[u32]) -> bool
    ensures { IsTrue result ↔ AreCutsOf nodes cuts.now }
{
    begin_with_0(cuts) && rise_below(nodes, cuts)
}
