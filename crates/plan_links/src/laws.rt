//! What links are. The law is a call that does nothing when it runs.
ghost use Rattle.plan_links.specs.Laws.{LinksFit};

/// Each link of the expansion of a good state is such as the rules of paths take.
pub fn links_fit()
    ensures { LinksFit }
{}
