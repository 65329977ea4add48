//! The names of an object's members against a list of names.
ghost use Rattle.std.specs.Prelude.{◌≡◌, is_some, option_map};
ghost use Rattle.serde_json.specs.Find.{get_member};
ghost use Rattle.serde_json.specs.View.{members_view};
ghost use Rattle.json_view.specs.Answers.{now_of, bytes_of};
ghost use Rattle.json_view.specs.Names.{least_unlisted as least_unlisted_of, first_missing as first_missing_of, is_listed as is_listed_in};

use serde_json::{Map, Value};

/// The least name of a member, by its bytes, that isn't listed in `names`.
pub(crate) fn least_unlisted<'m>(members: &'m Map<String, Value>, names: &str) -> Option<&'m String>
    ensures { option_map bytes_of result
        ≡ least_unlisted_of names.now (members_view members.now.entries) }
{
    members.keys().find(|name| !is_listed(name.as_str(), names))
}

/// The first name listed in `names` that no member has.
pub(crate) fn first_missing<'n>(members: &Map<String, Value>, names: &'n str) -> Option<&'n str>
    ensures { option_map now_of result
        ≡ first_missing_of names.now (members_view members.now.entries) }
{
    names.split(' ').find(|name| !has_member(members, name))
}

/// Whether a member has the name.
pub(crate) fn has_member(members: &Map<String, Value>, name: &str) -> bool
    ensures { result ≡ is_some (get_member name.now (members_view members.now.entries)) }
{
    members.contains_key(name)
}

fn is_listed(name: &str, names: &str) -> bool
    ensures { result ≡ is_listed_in names.now name.now }
{
    names.split(' ').any(|listed| listed == name)
}
