//! The changes between two maps.
ghost use Rattle.std.specs.Prelude.{◌≡◌, false, IfOk};
ghost use Rattle.edit_footprint.specs.Prelude.{is_among, row_at, differences};
ghost use Rattle.osm_refs.specs.Rising.{IsRising};

use osm_changes::changes::Changes;
use osm_changes::lookup::Lookup;
use osm_elements::Memory;
use osm_elements::element::copy_of;
use osm_elements::name::Name;
use osm_refs::name_set::name_set;
use std::alloc::Allocator;

/// Returns the changes from one map to another, whose rows differ at most at the given names. These can have any order
/// and repetitions. For each name, it costs two look-ups and a copy of both rows.
///
/// # Errors
///
/// `Memory`, if an allocation fails.
pub fn changes_between<A: Allocator + Clone, M: Lookup<A>, N: Lookup<A>>(
    alloc: A,
    before: &M,
    after: &N,
    names: Vec<Name, A>,
) -> Result<Changes<A>, Memory>
    requires { (y : Name) → is_among names.items y ≡ false
        → row_at (N.rows after.now) y ≡ row_at (M.rows before.now) y }
    ensures { IfOk result (λ cs. cs ≡ differences (M.rows before.now) (N.rows after.now)) }
{
    let names = name_set(names)?;
    changes_at(alloc, before, after, &names)
}

// Returns the changes from one map to another, whose rows differ at most at the given names. The names rise.
fn changes_at<A: Allocator + Clone, M: Lookup<A>, N: Lookup<A>>(
    alloc: A,
    before: &M,
    after: &N,
    names: &[Name],
) -> Result<Changes<A>, Memory>
    requires rising { IsRising names.now }
    requires rest { (y : Name) → is_among names.now y ≡ false
        → row_at (N.rows after.now) y ≡ row_at (M.rows before.now) y }
    ensures { IfOk result (λ cs. cs ≡ differences (M.rows before.now) (N.rows after.now)) }
{
    let mut changes = Changes::empty(alloc);
    for name in names {
        let old = copy_of(before.element(name))?;
        let new = copy_of(after.element(name))?;
        changes.push_row(*name, old, new)?;
    }
    Ok(changes)
}
