//! The plans of the actions on single elements.
//!
//! Each plan returns the changes that lead to the map after the action, or the first of the action's checks that holds.
//! If an allocation fails, it returns `Memory` in place of the changes. `Memory` replaces no refusal, except those that
//! [`plan_retag`] and [`plan_move`] name. The draft is unchanged. The errors of a plan are in the order of its checks.
//!
//! Plans take the allocator as their first argument because a store does not give out its allocator. For `Nothing`,
//! they compare the tags, nodes or members of one element: no plan looks at the whole map.
pub use crate::create::plan_create;
pub use crate::delete::plan_delete;
pub use crate::members::plan_members;
pub use crate::moving::plan_move;
pub use crate::nodes::plan_nodes;
pub use crate::purge::plan_purge;
pub use crate::retagging::plan_retag;
pub use crate::reverse::plan_reverse;
