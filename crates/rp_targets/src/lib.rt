//! Steps of what binds and deletes targets: assignment, `for`, `del` and comprehensions.
#![tactic(auto)]

mod comprehensions;
mod deleting;
mod looping;
mod places;
mod special_methods;
mod storing;
mod unpacking;

pub use comprehensions::{
    ComprehensionParts, add_element, add_entry, adds_at, after_added_key, after_where, clause_turn,
    comprehend, comprehension, inner_scope, new_result, where_all,
};
pub use deleting::{after_deleted_key, del_attribute, delete_key};
pub use looping::{first_turn, for_each, walk_on, walk_over};
pub use places::{delete_all, store_all, store_more};
pub use storing::{after_container, after_object, after_store_key, set_attribute, set_item};
pub use unpacking::{assign_target, store_each, store_target};
