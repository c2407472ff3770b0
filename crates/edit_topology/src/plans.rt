//! Plans of split, join, merge and unglue: the changes that each action would make in a store, or its refusal.
//!
//! A plan looks at its subjects and at the users of one subject, which all change. The plan of an unglue looks at its
//! subjects and at the node at the position. No plan looks at any other element. The cost is the size of these
//! elements, times a logarithm.
//!
//! If an allocation fails, a plan returns `Memory` in place of the changes. `Memory` replaces no refusal, except those
//! that a plan's documentation names.
pub use crate::join::plan_join;
pub use crate::merge::plan_merge;
pub use crate::split::plan_split;
pub use crate::unglue::plan_unglue;
