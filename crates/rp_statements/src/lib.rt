//! Steps of the forms of statements (Python Language Reference, Simple and Compound statements).
#![tactic(auto)]

mod asserting;
mod augmentation;
mod augmented_places;
mod class_blocks;
mod handling;
mod raising;
mod returning;

pub use asserting::{asserted, fail_with};
pub use augmentation::{after_augment, augmented, bind_next};
pub use augmented_places::{
    after_attribute, after_augmented_item, after_augmented_key, after_got, augment_key,
    augment_read,
};
pub use class_blocks::{after_method, class, class_part};
pub use handling::{after_handler, begin_try, behind_handler, finish, handle, leave};
pub use raising::{raise, raised};
pub use returning::{give_back, returns, with_return};
