//! The list of the actions.

/// Calls the macro `$write` with `$given`, followed by the list of the actions.
///
/// A line of the list has, in this order:
/// - the action, and its word in a message
/// - its fields, in the order in which its plan takes them
/// - its plan
/// - its subjects: the `tags`, the `rest` or `both` parts of the rows of `names`, which are fields, or of `each` name
///   in a field that is a list
///
/// A field says how the plan takes it: `lent`, as a `slice`, or as a `number`. After `from` comes the field of a
/// message from which it is read. If reading depends on the kind of a name, `by` has the field of this name. Fields are
/// read in this order.
#[macro_export]
macro_rules! each_action {
    ($write:ident $given:tt) => {
        $write! {
            $given
            Create "create" { name: lent from el, element: lent from element by name } by plan_create about both names [name];
            Retag "retag" { name: lent from el, tags: lent from given_tags } by plan_retag about tags names [name];
            Move "move" { names: slice from els, dlat: number from dlat, dlon: number from dlon } by plan_move about rest each [names];
            Reverse "reverse" { name: lent from el } by plan_reverse about rest names [name];
            Nodes "nodes" { name: lent from el, list: lent from nodes } by plan_nodes about rest names [name];
            Members "members" { name: lent from el, list: lent from members } by plan_members about rest names [name];
            Delete "delete" { name: lent from el } by plan_delete about both names [name];
            Purge "purge" { name: lent from el } by plan_purge about both names [name];
            Split "split" { name: lent from el, place: number from at, into: lent from into } by plan_split about both names [name, into];
            Join "join" { name: lent from el, other: lent from with } by plan_join about both names [name, other];
            Merge "merge" { name: lent from el, other: lent from with } by plan_merge about both names [name, other];
            Unglue "unglue" { name: lent from el, place: number from at, into: lent from into } by plan_unglue about both names [name, into];
        }
    };
}
