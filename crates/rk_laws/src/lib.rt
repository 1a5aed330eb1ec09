//! Laws of the definitions that `rk_bytes` states. Each law is the contract of a function that does
//! nothing, so that its proof stands here, below no other crate.
#![tactic(auto)]

mod batch;
mod best_efforts;
mod blocks;
mod checksums;
mod commands;
mod descent;
mod disk_images;
mod edit;
mod internal_key;
mod key_view;
mod log_items;
mod manifest;
mod names;
mod numbers;
mod opening;
mod records;
mod replay;
mod salvage;
mod tables;

pub use batch::one_batch;
pub use best_efforts::{answers_of_a_test, best_refusals, one_best_vector, usable_units};
pub use blocks::{one_block, one_delta_index, one_index, written_block};
pub use checksums::{crc32c_of_appended, mask_round_trip};
pub use commands::one_command;
pub use descent::{descends_from_itself, descent_goes_through, ready_after_a_stop};
pub use disk_images::{
    contents_at_rest, image_of_an_image, images_of_synced_names, one_image_at_rest,
};
pub use edit::{one_edit, written_edit};
pub use internal_key::{key_order, key_round_trip};
pub use key_view::{nothing_hidden, rows_are_what_is_shown, rows_rise};
pub use log_items::one_parting;
pub use manifest::{one_list_of_units, versions_in_order};
pub use names::one_name;
pub use numbers::{one_varint, shortest_varint, varint_round_trip, zigzag_round_trip};
pub use opening::{things_in_order, top_of_the_records, undamaged_opens_alike};
pub use records::{last_of_appended, slot_order};
pub use replay::{no_log_adds_nothing, undamaged_logs_add_alike};
pub use salvage::{
    lowest_log_may_go, nothing_to_add, one_free_lost_name, records_in_order,
    salvage_of_tables_and_logs,
};
pub use tables::written_table;
