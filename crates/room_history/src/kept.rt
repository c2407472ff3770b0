//! What a room keeps of the changes of an entry.
ghost use Rattle.std.specs.Prelude.{◌≡◌, Some, IfOk, map, option_copied, is_some};
ghost use Rattle.osm_changes.specs.Changes.{changes_of, AreFrom};
ghost use Rattle.room_history.specs.Inner.Telling.{footprint_by, is_group, single_effect, told_row};

use crate::news::told_rows;
use edit_footprint::footprint::Footprint;
use edit_footprint::touching::footprint;
use osm_changes::changed_row::{ChangedRow, ChangedRows};
use osm_changes::changes::Changes;
use osm_changes::laws::changes_are_those_of_rows;
use osm_changes::store::Store;
use osm_elements::Memory;
use room_interface::edit::Edit;
use room_interface::news::NewsRows;
use std::alloc::Allocator;
use std::array;
use std::marker::Model;

// The effect of an entry: its changes, and the rows of their names before and after it. The changes do not determine these
// rows, because they lack the unchanged part of a row. For a group, it also has the footprint, which does not follow from
// the group's actions and changes.
#[derive(Drop)]
#[derive_where(Debug)]
pub(crate) struct Effect<A: Allocator> {
    pub(crate) changes: Changes<A>,
    pub(crate) rows: ChangedRows<A>,
    pub(crate) group: Option<Footprint<A>>,
}

// An effect as a room keeps it. Its rows determine its changes. Most entries change one row, which needs no memory of its
// own.
#[derive(Drop)]
#[derive_where(Debug)]
pub(crate) struct Kept<A: Allocator> {
    form: Form<A>,
}

// The form in which an effect is kept.
#[derive(Drop)]
#[derive_where(Debug)]
enum Form<A: Allocator> {
    /// The only row of an action.
    Row(ChangedRow<A>),
    /// The rows of an action.
    Rows(ChangedRows<A>),
    /// The rows of a group, and its footprint.
    Group {
        rows: ChangedRows<A>,
        footprint: Footprint<A>,
    },
}

// The model of a kept effect is the effect.
impl<A: Allocator> Model for Kept<A> {
    ghost use Rattle.room_history.specs.declared.kept.Effect.{Effect};
    ghost use Rattle.room_history.specs.Inner.Kept.{kept_effect};

    ghost Value = { Effect A };

    ghost view = { λ k. kept_effect k.form };
}

// Returns the effect of changes that are not a group's, with the rows of a store before and after them, before they are
// applied. The rows determine the changes.
pub(crate) fn effect_of<A: Allocator + Clone>(
    alloc: A,
    store: &Store<A>,
    changes: Changes<A>,
) -> Result<Effect<A>, Memory>
    requires { AreFrom store.now.rows changes }
    ensures effect { IfOk result (λ e. e ≡ single_effect store.now.rows changes) }
    ensures changes { IfOk result (λ e. changes_of e.rows ≡ e.changes) }
{
    changes_are_those_of_rows::<A>();
    let _ = changes.rows();
    let rows = store.changed_rows(alloc, &changes)?;
    Ok(Effect {
        changes,
        rows,
        group: None,
    })
}

pub(crate) fn is_group<A: Allocator>(edit: &Edit<A>) -> bool
    ensures { result ≡ is_group (Some edit.now) }
{
    matches!(edit, Edit::Group(_))
}

// Returns the footprint of an edit with its changes. The footprint of one action follows from them; that of a group was
// kept.
pub(crate) fn footprint_by<A: Allocator + Clone>(
    alloc: A,
    edit: &Edit<A>,
    kept: &Kept<A>,
    changes: &Changes<A>,
) -> Result<Footprint<A>, Memory>
    requires { is_group (Some edit.now) ≡ is_some kept.now.group }
    ensures { IfOk result (λ f. f ≡ footprint_by edit.now kept.now.group changes.now) }
{
    match edit {
        Edit::One(action) => footprint(alloc, action, changes),
        Edit::Group(_) => match kept.group() {
            Some(footprint) => footprint.copy(),
            None => unreachable!(),
        },
    }
}

impl<A: Allocator> Kept<A> {
    // Keeps an effect, and for a group its footprint.
    pub(crate) fn of(effect: Effect<A>, group: Option<Footprint<A>>) -> Kept<A>
        requires changes { changes_of effect.rows ≡ effect.changes }
        ensures { result ≡ record effect { group = group } }
    {
        let Effect { rows, .. } = effect;
        let form = match group {
            Some(footprint) => Form::Group { rows, footprint },
            None => match rows.into_sole() {
                Ok(row) => Form::Row(row),
                Err(rows) => Form::Rows(rows),
            },
        };
        Kept { form }
    }

    // Returns the footprint of a group, or `None` for one action.
    pub(crate) fn group(&self) -> Option<&Footprint<A>>
        ensures { option_copied result ≡ self.now.group }
    {
        match &self.form {
            Form::Row(_) | Form::Rows(_) => None,
            Form::Group { footprint, .. } => Some(footprint),
        }
    }

    // Returns the changes.
    pub(crate) fn changes(&self, alloc: A) -> Result<Changes<A>, Memory>
    where
        A: Clone,
        ensures { IfOk result (λ cs. cs ≡ self.now.changes) }
    {
        match &self.form {
            Form::Row(row) => row.changes(alloc),
            Form::Rows(rows) | Form::Group { rows, .. } => rows.changes(alloc),
        }
    }

    // Returns the rows in the form of news.
    pub(crate) fn told(&self, alloc: A) -> Result<NewsRows<A>, Memory>
    where
        A: Copy,
        ensures { IfOk result (λ rows. rows ≡ map told_row self.now.rows) }
    {
        told_rows(alloc, self.rows())
    }

    // Returns the rows.
    fn rows(&self) -> &[ChangedRow<A>]
        ensures { result.now ≡ self.now.rows }
    {
        match &self.form {
            Form::Row(row) => array::from_ref(row),
            Form::Rows(rows) | Form::Group { rows, .. } => rows.as_slice(),
        }
    }
}
