//! Laws of what the readers answer.
ghost use Rattle.json_view.specs.Leads.{PlacesLead};

/// The law that the place of each view leads, as `serde_json` follows a JSON pointer, from the root's
/// value to the view's own.
pub fn places_lead_to_their_values()
    ensures { PlacesLead }
{}
