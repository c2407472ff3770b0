//! The plan of a delete.
ghost use Rattle.std.specs.Prelude.{◌≡◌, true};
ghost use Rattle.osm_changes.specs.Sound.{is_sound};
ghost use Rattle.edit_simple.specs.Delete.{delete_checks, after_delete};
ghost use Rattle.edit_simple.specs.Plans.{IsNamed, IsPlan};

use crate::changing::one_change;
use osm_changes::changes::Changes;
use osm_drafts::draft::Draft;
use osm_elements::name::Name;
use room_interface::refusal::Refusal;
use std::alloc::Allocator;

/// Plans to delete an element. It looks at no other element.
///
/// # Errors
///
/// - `Absent`, if the map does not have the name
/// - `InUse`, with the least element that refers to the name, which can be the element itself (OpenStreetMap API v0.6:
///   an element in use is not deleted)
#[tactic(auto, using(crate::specs::Facts::Checked::named_if_none))]
pub fn plan_delete<A: Allocator + Clone>(
    alloc: A,
    rows: &Draft<'_, A>,
    name: &Name,
) -> Result<Changes<A>, Refusal<A>>
    requires { is_sound rows.now ≡ true }
    ensures plan { IsPlan rows.now (delete_checks rows.now name.now) (after_delete rows.now name.now) result }
    ensures named { IsNamed (delete_checks rows.now name.now) result }
{
    let Some(element) = rows.get(name) else {
        return Err(Refusal::Absent(*name));
    };
    if let Some(user) = rows.first_user(name) {
        return Err(Refusal::InUse(*name, user));
    }
    let before = element.copy()?;
    Ok(one_change(alloc, name, Some(before), None)?)
}
