//! What one can ask a room, and what it replies.
//!
//! An [`author::Author`] has a [`call::Call`] run by a room. A call requests an [`edit::Edit`], an undo or a redo. An
//! edit is one [`action::Action`], or a group of actions that is accepted or refused as a whole. The room gives a
//! [`reply::Reply`], which can be a refusal ([`refusal::Refusal`]). An accepted call's changes are [`news::News`] for
//! clients. An [`ask::RoomCall`] is a call or a query, and has an [`ask::RoomReply`].
//!
//! [`each_action!`] hands the list of the actions to a macro, so that code for all actions is written once.
//!
//! A function that cannot return `Memory` allocates nothing.
#![tactic(auto)]

pub mod action;
pub mod actions;
pub mod ask;
pub mod author;
pub mod call;
mod each_action;
pub mod edit;
pub mod edit_refusal;
pub mod laws;
pub mod news;
pub mod refusal;
pub mod reply;
pub mod retag;
